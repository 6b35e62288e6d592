// Pages in two frames beside one saved page: which leaves, and what is saved. What is expected was worked out by hand.
use page_cache::{PageCache, WORDS};
use tnk_base::Key;

/// A call with the number of a page.
#[derive(Clone, Copy)]
enum Call {
    /// A page that isn't resident is put into a frame; whether its words were saved.
    Put(bool),
    /// Whether the page is resident, with its words.
    Find(bool),
    /// Whether it was resident.
    Evict(bool),
    /// Whether it was saved.
    Drop(bool),
    /// Whether it is saved, with its words.
    Saved(bool),
}

/// A page and a call, and how often a page was evicted by then.
type Step = (u16, Call, u64);

const STEPS: [Step; 23] = [
    (0, Call::Put(false), 0),
    (1, Call::Put(false), 0),
    // Page 0 is touched, so page 1 leaves its frame.
    (0, Call::Find(true), 0),
    (2, Call::Put(false), 1),
    (1, Call::Saved(true), 1),
    (1, Call::Find(false), 1),
    (0, Call::Find(true), 1),
    // Page 2 leaves, and takes the place of page 1 among the saved ones.
    (1, Call::Put(false), 2),
    (1, Call::Saved(false), 2),
    (2, Call::Saved(true), 2),
    (2, Call::Find(false), 2),
    (0, Call::Evict(true), 3),
    (0, Call::Evict(false), 3),
    (0, Call::Saved(true), 3),
    (0, Call::Drop(true), 3),
    (0, Call::Drop(false), 3),
    (0, Call::Saved(false), 3),
    // What is restored stays saved.
    (1, Call::Evict(true), 4),
    (1, Call::Put(true), 4),
    (1, Call::Find(true), 4),
    (1, Call::Saved(true), 4),
    // It is saved already.
    (1, Call::Evict(true), 5),
    (1, Call::Saved(true), 5),
];

/// The words of a page.
fn words_of(key: Key) -> [u64; 512] {
    [u64::from(key.page) + 7; WORDS]
}

/// Puts a page that isn't resident into a frame, with the words that are saved or else its own; None for a resident one.
fn put(cache: &mut PageCache, key: Key) -> Option<bool> {
    cache.make_room();
    if cache.find(key).is_some() {
        return None;
    }
    let mut words = words_of(key);
    let mut is_saved = false;
    if let Some(saved) = cache.saved(key) {
        words.copy_from_slice(saved);
        is_saved = true;
    }
    cache.put(key, &words);
    Some(is_saved)
}

/// Whether a page is resident as it should be.
fn is_resident(cache: &mut PageCache, key: Key, is_there: bool) -> bool {
    match cache.find(key) {
        Some(slot) => is_there && cache.words(slot) == words_of(key).as_slice(),
        None => !is_there,
    }
}

/// Whether a page is saved as it should be.
fn is_saved(cache: &PageCache, key: Key, is_there: bool) -> bool {
    match cache.saved(key) {
        Some(words) => is_there && words == words_of(key).as_slice(),
        None => !is_there,
    }
}

fn comes_to(cache: &mut PageCache, case: &Step) -> bool {
    let (page, call, evicted) = *case;
    let key = Key { program: 0, page };
    let is_done = match call {
        Call::Put(is_saved) => put(cache, key) == Some(is_saved),
        Call::Find(is_there) => is_resident(cache, key, is_there),
        Call::Evict(is_there) => cache.evict(key) == is_there,
        Call::Drop(is_there) => cache.drop_saved(key) == is_there,
        Call::Saved(is_there) => is_saved(cache, key, is_there),
    };
    is_done && cache.evicted() == evicted
}

#[test]
fn pages_come_and_go(rt: HostRuntime) {
    let mut cache = PageCache::new(rt.alloc(), 2, 1).expect(&rt, "there is memory");
    for (row, case) in STEPS.iter().enumerate() {
        assert!(rt; comes_to(&mut cache, case), "row {row}");
    }
}
