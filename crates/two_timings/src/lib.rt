// What two timings of one block's operations have in common.
//
// It has no code. It stands on `timed_meaning`, which says what a block and a program do cycle by cycle, on `trap_order`
// for the pairs that keep issue order, and on `serial_order` for lists of operations. It defines timings, when one agrees
// with a serial order (specs/Timing.antt), and which operation of a block is before which (specs/Before.antt). Its
// contracts are three laws over these definitions (specs/Law.antt): timings that agree with one serial order do the same,
// programs of such blocks mean the same, and a block's own times agree with each of its serial orders. An example meets
// the laws' premises (specs/Example.antt).
#![tactic(auto)]

ghost use Rattle.two_timings.specs.Law.{TimingsThatAgreeDoTheSame, ProgramsMeanTheSame, OwnTimesAgree};
ghost use Rattle.two_timings.specs.Example.{MeetsThePremises};

/// Two timings of one block's operations that agree with one serial order end alike, from every state and input.
pub fn two_timings_do_the_same()
    ensures { TimingsThatAgreeDoTheSame }
{}

/// Programs alike but for the times of their blocks mean the same, where those agree block by block with one serial order.
pub fn programs_mean_the_same()
    ensures { ProgramsMeanTheSame }
{}

/// The times of a block whose writes land apart agree with each of its serial orders.
pub fn own_times_agree()
    ensures { OwnTimesAgree }
{}

/// There is a block whose timings and order meet the premises of the laws.
pub fn the_premises_can_be_met()
    ensures { MeetsThePremises }
{}
