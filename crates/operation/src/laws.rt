// What holds of the operations and of their tables, each as the contract of a function that does
// nothing.
ghost use Rattle.operation.specs.Laws.{EqualByParts, EffectsInRange, WiredByAllDestinations};

/// Two guarded operations with equal guard and equal operation are equal.
pub fn equal_by_parts()
    ensures { EqualByParts }
{}

/// The numbers of registers in an effect are at most 31, those of branch targets at most 7.
pub fn effects_in_range()
    ensures { EffectsInRange }
{}

/// An operation is wired on a predicate in a family exactly where it writes the predicate and all
/// its destinations there are of that family.
pub fn wired_by_all_destinations()
    ensures { WiredByAllDestinations }
{}
