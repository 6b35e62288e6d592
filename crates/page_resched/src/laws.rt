// What holds of blocks and pages in form, each as the contract of a function that does nothing.
ghost use Rattle.page_resched.specs.Laws.{BlocksAreProblems, FormsHaveTimes, SchedulesAgree, FormsAreScheduled, FormsKeepTheRules, FormsKeepBefore, OneForm, EachBlockHasAForm, OnePageForm, EachPageHasAForm};

/// A good block can be scheduled for each generation that has its units.
pub fn blocks_are_problems()
    ensures { BlocksAreProblems }
{}

/// The words of a form are as many as the block's, and have the cycles and the end of the schedule.
pub fn forms_have_times()
    ensures { FormsHaveTimes }
{}

/// The schedule, under the latencies of the generation, agrees with each serial order of the block.
pub fn schedules_agree()
    ensures { SchedulesAgree }
{}

/// The operations of a form, with their times, are those of the schedule.
pub fn forms_are_scheduled()
    ensures { FormsAreScheduled }
{}

/// A form breaks no rule, under the new description and among the rows of the old.
pub fn forms_keep_the_rules()
    ensures { FormsKeepTheRules }
{}

/// "Before" is the same relation among the same operations.
pub fn forms_keep_before()
    ensures { FormsKeepBefore }
{}

/// A block has one form at most.
pub fn one_form()
    ensures { OneForm }
{}

/// Each block has a form.
pub fn each_block_has_a_form()
    ensures { EachBlockHasAForm }
{}

/// A page has one form at most.
pub fn one_page_form()
    ensures { OnePageForm }
{}

/// Each page has a form.
pub fn each_page_has_a_form()
    ensures { EachPageHasAForm }
{}
