// What holds of serial orders and of the stuck set, each as the contract of a function that does nothing.
ghost use Rattle.serial_order.specs.Laws.{StuckWhereSomeSetHas, StuckSetIsGreatest, FirstStuckIsLeast, OrderedWhereNoneStuck, SameBeforeSameStuck};

/// An operation is stuck exactly where it is in some set of which each member has a member before it.
pub fn stuck_where_some_set_has()
    ensures { StuckWhereSomeSetHas }
{}

/// The operations that are stuck are together the greatest such set.
pub fn stuck_set_is_greatest()
    ensures { StuckSetIsGreatest }
{}

/// The first that is stuck is the least one.
pub fn first_stuck_is_least()
    ensures { FirstStuckIsLeast }
{}

/// There is a serial order exactly where nothing is stuck.
pub fn ordered_where_none_stuck()
    ensures { OrderedWhereNoneStuck }
{}

/// Two relations that agree on the operations have the same that are stuck.
pub fn same_before_same_stuck()
    ensures { SameBeforeSameStuck }
{}
