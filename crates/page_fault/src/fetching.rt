// The words of a page that isn't resident.
ghost use Rattle.std.specs.Prelude.{◌≡◌, ◌<◌, length, All, not};
ghost use Rattle.machine_desc.specs.Value.{description_of};
ghost use Rattle.machine_desc.specs.Same.{are_same};
ghost use Rattle.image_format.specs.Image.{page_count};
ghost use Rattle.image_check.specs.Blocks.{page_of};
ghost use Rattle.image_check.specs.Units.{HasUnits};
ghost use Rattle.page_resched.specs.Form.{IsFormOfPage};
ghost use Rattle.paging.specs.Pages.{Page};
ghost use Rattle.page_fault.specs.Loading.{IsThere, HasForm, HaveUnits};
ghost use Rattle.page_fault.specs.Fetching.{IsFetched};

use super::Loaded;
use machine_desc::same;
use page_cache::PageCache;
use page_resched::Resched;
use tnk_base::Key;

/// Where the words of a page were taken from: it was saved, or stands in its own image, or was rescheduled.
#[derive(Clone, Copy)]
pub(crate) enum Source {
    Saved,
    Own,
    Rescheduled,
}

/// Puts the words of a program's page into `out`, in the form in which it runs, and answers whether that is another one than
/// its own.
fn form(resched: &mut Resched, program: &Loaded, n: u16, out: &mut [u64]) -> bool
    requires page { n < page_count program.now.image }
    requires units { HasUnits program.now.image (description_of program.now.chosen) }
    requires room { length out.old ≡ 512 }
    ensures form { IsFormOfPage program.now.image.description (description_of program.now.chosen)
        (page_of program.now.image n) out.new }
    ensures moved { result ≡ not (are_same program.now.image.description (description_of program.now.chosen)) }
{
    let own = &program.image.parts().description;
    resched.page(program.image.page(n), own, &program.chosen, out);
    !same(own, &program.chosen)
}

/// Puts the words of a key's page into `out`: those that were saved, or else its form.
pub(crate) fn fetch(
    programs: &Vec<Loaded>,
    cache: &PageCache,
    key: Key,
    resched: &mut Resched,
    out: &mut [u64],
) -> Source
    requires there { IsThere programs.now.items key }
    requires units { HaveUnits programs.now.items }
    requires room { length out.old ≡ 512 }
    requires saved { All (HasForm programs.now.items) cache.now.saved }
    ensures { IsFetched programs.now.items cache.now (record { key = key; words = out.new }) result }
{
    if let Some(words) = cache.saved(key) {
        out.copy_from_slice(words);
        return Source::Saved;
    }
    let program = &programs[key.program as usize];
    if form(resched, program, key.page, out) {
        Source::Rescheduled
    } else {
        Source::Own
    }
}
