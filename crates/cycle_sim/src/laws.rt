// What holds of blocks that a machine plays.
ghost use Rattle.cycle_sim.specs.Laws.{ReadyAtEntry};

/// A block's entry is ready for the block's first MultiOp.
pub fn ready_at_entry()
    ensures { ReadyAtEntry }
{}
