// Which operations keep the order in which they are listed because of traps and input.
//
// It stands on `operation`, takes no memory and never fails. Its contract promises that `ordered` holds of exactly the pairs
// of specs/Order.antt, and the law that this relation is symmetric.
#![tactic(auto)]

ghost use Rattle.std.specs.Prelude.{◌≡◌};
ghost use Rattle.trap_order.specs.Order.{keep_issue_order};
ghost use Rattle.trap_order.specs.Laws.{EitherWayRound};

use operation::{Op, can_trap, is_inb};

/// Whether two operations of a block issue in the order in which they are listed: both can trap, or both are `inb`.
///
/// `div`, `rem`, loads, stores and `outb` can trap. The answer is the same for `b` and `a`.
pub fn ordered(a: &Op, b: &Op) -> bool
    ensures { result ≡ keep_issue_order a.now b.now }
{
    can_trap(a) && can_trap(b) || is_inb(a) && is_inb(b)
}

/// Of two operations it doesn't matter which is named first.
pub fn either_way_round()
    ensures { EitherWayRound }
{}
