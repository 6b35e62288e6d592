// What holds after every list of events, each as the contract of a function that does nothing.
ghost use Rattle.context_system.specs.Turns.{OnlyItsTurnsCount, DoesAsAlone, TurnsBringOn, EndedStandStill};
ghost use Rattle.context_system.specs.Meant.{ContextsAreAsMeant, TimingsAreAsMeant, CyclesAreCounted, ContextsStandInBlocks, ContextsEnd, AllEnd, EachCanRun};
ghost use Rattle.context_system.specs.Pages.{PagesKeepTheirForms, ListsStayWithin, WordsComeBack, SharedRunOneImage, ContextsFindTheirWords, TurnsPlayTheirPages, PagesAreCounted, NoneRescheduledAtHome};
ghost use Rattle.context_system.specs.Example.{PremisesCanBeMet, AreWorked};

use block_steps::{begins_as_meant, lands_whole, sound_is_in_order, steps_as_meant};
use image_check::laws::{programs_are_sound, programs_in_other_timings};
use image_format::laws::reads_back;
use image_resched::laws::{
    each_is_rescheduled, one_rescheduled, rescheduled_is_accepted, rescheduled_means_the_same,
};

/// Whatever accepted images the contexts run, as whatever generations that have their units, and whatever events come, each
/// context that has ended has the end, the blocks, the output and the memory of its image's program under the image's own
/// description, and each that stands between two blocks has that program's state and entry.
pub fn contexts_are_as_meant()
    ensures { ContextsAreAsMeant }
{
    begins_as_meant();
    steps_as_meant();
    lands_whole();
    sound_is_in_order();
    programs_are_sound();
    rescheduled_is_accepted();
    rescheduled_means_the_same();
}

/// The same holds of all timings of the blocks that agree with the image's own, however they were found.
pub fn timings_are_as_meant()
    ensures { TimingsAreAsMeant }
{
    begins_as_meant();
    steps_as_meant();
    lands_whole();
    programs_in_other_timings();
}

/// Each context takes the cycles of its program as it runs, in the times of its forms.
pub fn cycles_are_counted()
    ensures { CyclesAreCounted }
{
    begins_as_meant();
    steps_as_meant();
    lands_whole();
    sound_is_in_order();
    programs_are_sound();
    rescheduled_is_accepted();
}

/// A context that hasn't ended stands in a block of its program.
pub fn contexts_stand_in_blocks()
    ensures { ContextsStandInBlocks }
{
    sound_is_in_order();
    programs_are_sound();
    rescheduled_is_accepted();
}

/// A context that has had 512 turns for each block of its bound has ended.
pub fn contexts_end()
    ensures { ContextsEnd }
{
    sound_is_in_order();
    programs_are_sound();
    rescheduled_is_accepted();
}

/// All contexts have ended when turns have gone round 512 times for each block of the greatest bound.
pub fn all_end()
    ensures { AllEnd }
{
    contexts_end();
}

/// Each accepted image can run in each generation that has its units.
pub fn each_can_run()
    ensures { EachCanRun }
{
    each_is_rescheduled();
}

/// Each turn of a context that hasn't ended brings it on.
pub fn turns_bring_on()
    ensures { TurnsBringOn }
{}

/// A turn of a context that has ended changes nothing.
pub fn ended_stand_still()
    ensures { EndedStandStill }
{}

/// Each context is where its own turns have brought it.
pub fn only_its_turns_count()
    ensures { OnlyItsTurnsCount }
{}

/// A context is what it has alone, in whatever frames, after as many of its turns.
pub fn does_as_alone()
    ensures { DoesAsAlone }
{}

/// The words under each key, resident or saved, are those of its form.
pub fn pages_keep_their_forms()
    ensures { PagesKeepTheirForms }
{}

/// The words under a key after an eviction and a reload are those before.
pub fn words_come_back()
    ensures { WordsComeBack }
{}

/// Contexts that share a program run one image.
pub fn shared_run_one_image()
    ensures { SharedRunOneImage }
{
    reads_back();
    one_rescheduled();
}

/// A context finds the words of the image that it runs under the keys of its program.
pub fn contexts_find_their_words()
    ensures { ContextsFindTheirWords }
{
    shared_run_one_image();
}

/// A turn of a context plays words that are resident.
pub fn turns_play_their_pages()
    ensures { TurnsPlayTheirPages }
{
    shared_run_one_image();
    rescheduled_is_accepted();
}

/// The lists of pages stay within their greatest lengths.
pub fn lists_stay_within()
    ensures { ListsStayWithin }
{}

/// No key stands twice in either list, and the counts of loads, evictions, restores and reschedulings agree.
pub fn pages_are_counted()
    ensures { PagesAreCounted }
{}

/// Where each context runs in the generation that its image was made for, no page is rescheduled.
pub fn none_rescheduled_at_home()
    ensures { NoneRescheduledAtHome }
{}

/// An image for one generation can run as another: the premises of the laws can be met.
pub fn premises_can_be_met()
    ensures { PremisesCanBeMet }
{}

/// Runs of an image in two generations, beside each other in one frame, come to what was worked out by hand.
pub fn example_is_as_worked()
    ensures { AreWorked }
{}
