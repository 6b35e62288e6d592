// What an operation reads and writes.
ghost use Rattle.std.specs.Prelude.{◌≡◌, Option, Some, None, IfNone};
ghost use Rattle.operation.specs.Places.{reads as reads_place, writes as writes_place, wired as wired_family, wired_on as wired_family_on, family as family_of, common as common_of, is_constant as is_constant_place, is_read_by, one_read, two_read, target_read, sources as sources_of, listed, destinations as destinations_of};

use super::{Action, Dest, Destinations, Family, Guarded, Op, Place, Sources};

const NO_SOURCES: Sources = Sources {
    first: None,
    second: None,
    target: None,
    test: None,
    memory: false,
};

fn one_source(s: u8) -> Sources
    ensures { result ≡ one_read s }
{
    Sources {
        first: Some(s),
        ..NO_SOURCES
    }
}

fn two_sources(s: u8, t: u8) -> Sources
    ensures { result ≡ two_read s t }
{
    Sources {
        second: Some(t),
        ..one_source(s)
    }
}

fn target_source(s: u8) -> Sources
    ensures { result ≡ target_read s }
{
    Sources {
        target: Some(s),
        ..NO_SOURCES
    }
}

/// The operands of an operation.
pub fn sources(op: &Op) -> Sources
    ensures { result ≡ sources_of op.now }
{
    match *op {
        Op::Alu(_, _, s, t)
        | Op::Mul(_, s, t)
        | Op::Div(_, s, t)
        | Op::Rem(_, s, t)
        | Op::Cmp(_, _, _, s, t) => two_sources(s, t),
        Op::Store(_, d, s, _) => two_sources(s, d),
        Op::AluImm(_, _, s, _)
        | Op::Mvb(_, s)
        | Op::Outb(s)
        | Op::CmpImm(_, _, _, s, _)
        | Op::Halt(s) => one_source(s),
        Op::Load(_, _, s, _) => Sources {
            memory: true,
            ..one_source(s)
        },
        Op::Mvr(_, s) | Op::Bru(s) | Op::Brl(_, s) => target_source(s),
        Op::Brct(s, d) | Op::Brcf(s, d) => Sources {
            test: Some(d),
            ..target_source(s)
        },
        Op::Pbr(..) | Op::Inb(_) => NO_SOURCES,
    }
}

fn only(place: Place) -> Destinations
    ensures { result ≡ record { first = Some place; second = None } }
{
    Destinations {
        first: Some(place),
        second: None,
    }
}

/// The places where an operation leaves a value: none, one, or the two predicates of a compare.
pub fn destinations(op: &Op) -> Destinations
    ensures list { listed result ≡ destinations_of op.now }
    ensures order { IfNone result.first (result.second ≡ None) }
{
    match *op {
        Op::Alu(_, d, _, _)
        | Op::AluImm(_, d, _, _)
        | Op::Mvr(d, _)
        | Op::Mul(d, _, _)
        | Op::Div(d, _, _)
        | Op::Rem(d, _, _)
        | Op::Load(_, d, _, _)
        | Op::Inb(d) => only(Place::General(d)),
        Op::Pbr(d, _) | Op::Mvb(d, _) | Op::Brl(d, _) => only(Place::Target(d)),
        Op::Store(..) => only(Place::Memory),
        Op::Cmp(_, a, b, _, _) | Op::CmpImm(_, a, b, _, _) => Destinations {
            first: Some(Place::Predicate(a.p)),
            second: Some(Place::Predicate(b.p)),
        },
        Op::Outb(_) | Op::Bru(_) | Op::Brct(..) | Op::Brcf(..) | Op::Halt(_) => Destinations {
            first: None,
            second: None,
        },
    }
}

/// Whether a place is a constant: r0, which is 0, or p0, which is true.
pub fn is_constant(place: Place) -> bool
    ensures { result ≡ is_constant_place place }
{
    matches!(place, Place::General(0) | Place::Predicate(0))
}

/// Whether a place is among the operands.
fn is_operand(from: &Sources, place: Place) -> bool
    ensures { result ≡ is_read_by from.now place }
{
    match place {
        Place::General(n) => from.first == Some(n) || from.second == Some(n),
        Place::Predicate(n) => from.test == Some(n),
        Place::Target(n) => from.target == Some(n),
        Place::Memory => from.memory,
    }
}

/// Whether an operation reads a place: its guard, an operand, or the memory. Never r0 or p0.
pub fn reads(g: &Guarded, place: Place) -> bool
    ensures { result ≡ reads_place g.now place }
{
    !is_constant(place)
        && (place == Place::Predicate(g.guard) || is_operand(&sources(&g.op), place))
}

/// Whether an operation writes a place. Never r0 or p0.
pub fn writes(op: &Op, place: Place) -> bool
    ensures { result ≡ writes_place op.now place }
{
    let to = destinations(op);
    !is_constant(place) && (to.first == Some(place) || to.second == Some(place))
}

/// The wired family of an action.
fn family(action: Action) -> Option<Family>
    ensures { result ≡ family_of action }
{
    match action {
        Action::Un | Action::Uc => None,
        Action::On | Action::Oc => Some(Family::One),
        Action::An | Action::Ac => Some(Family::Zero),
    }
}

/// The family of both, if they have one.
fn common(first: Option<Family>, second: Option<Family>) -> Option<Family>
    ensures { result ≡ common_of first second }
{
    match (first, second) {
        (Some(Family::One), Some(Family::One)) => Some(Family::One),
        (Some(Family::Zero), Some(Family::Zero)) => Some(Family::Zero),
        _ => None,
    }
}

fn wired_on(a: &Dest, b: &Dest, predicate: u8) -> Option<Family>
    ensures { result ≡ wired_family_on a.now b.now predicate }
{
    match (predicate == a.p, predicate == b.p) {
        (true, true) => common(family(a.action), family(b.action)),
        (true, false) => family(a.action),
        (false, true) => family(b.action),
        (false, false) => None,
    }
}

/// The family in which an operation is wired on a predicate: that of all its destinations there.
///
/// None where it has no destination there, where they aren't of one family, and at p0.
pub fn wired(op: &Op, predicate: u8) -> Option<Family>
    ensures { result ≡ wired_family op.now predicate }
{
    match op {
        Op::Cmp(_, a, b, _, _) | Op::CmpImm(_, a, b, _, _) if predicate != 0 => {
            wired_on(a, b, predicate)
        }
        _ => None,
    }
}
