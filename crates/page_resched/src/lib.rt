// Blocks and pages in form: the words of a block for another generation, in the order of the block's list schedule.
//
// It stands on `list_sched` for schedules, on `latency_deps` for blocks and pages that keep the rules and for their links, on
// `list_encoding` for words and their times, and on `two_timings` for what it is that timings agree. What a form is stands in
// specs/Form.antt, and `Resched::page` promises just that; its memory is taken once. `laws` says what holds of forms
// (specs/Laws.antt): their times are the schedule's, which agrees with each serial order; they break no rule; "before" is the
// same relation among the same operations; and each block and each page has just one.
#![tactic(auto)]

mod forming;
pub mod laws;
mod listing;
mod rescheduling;

pub use rescheduling::Resched;
