// Which rule of a file is broken first.
ghost use Rattle.std.specs.Prelude.{◌≡◌, ◌≤◌, ◌<◌, ◌+◌, ◌-◌, ◌*◌, ◌^◌, nat_eq, length, drop, take, bytes_eq, codes, slice_index, sum_by, not, IsTrue, IfSome, IfOk};
ghost use Rattle.std.specs.HashSet.{contains_by};
ghost use Rattle.object_format.specs.Seen.{Grown};
ghost use Rattle.std.specs.List.{range_with_len};
ghost use Rattle.machine_desc.specs.Numbers.{are_ones as are_all_ones, is_between as is_number_between};
ghost use Rattle.image_format.specs.Rules.{is_number_in_range, least_failing};
ghost use Rattle.object_format.specs.Layout.{numbers_offset as numbers_at, names_offset as names_at, names_length, name_count, block_count, word_count, reference_count, label_count, given_length as given_length_in};
ghost use Rattle.object_format.specs.Rules.{has_magic as does_have_magic, is_byte_in_range, needless_version as needless_version_rule, broken_place as broken_place_in, block_size as block_size_in, words_fit as do_words_fit, names_fit as do_names_fit, is_length_given, broken_in, block_fields, reference_fields, label_fields, referring as referring_in, tail as tail_in, is_referring as is_referring_in, description as description_rule, header as header_rule, names as names_rule, blocks as blocks_rule, references as references_rule, labels as labels_rule};

use super::numbers::{
    BLOCKS, DATA, INITIAL, LABELS, NAME_BYTES, NAMES, REFERENCES, WORDS, blocks_offset, busy_times,
    given_length, header_number, is_version_two, labels_offset, names_offset, number,
    numbers_offset, references_offset, short_number, size, words_offset,
};
use std::alloc::Global;
use std::collections::HashSet;
use tnk_base::NoMemory;

fn is_between(low: u32, high: u32, n: u32) -> bool
    ensures { result ≡ is_number_between low high n }
{
    low <= n && n <= high
}

fn is_in_range(n: u32, latency: u8, number: u8) -> bool
    ensures { result ≡ is_number_in_range n latency number }
{
    let number = u32::from(number);
    if n == 0 {
        is_between(1, 16, number)
    } else if n < 6 {
        is_between(0, 8, number)
    } else {
        is_between(1, if n < 15 { 32 } else { u32::from(latency) }, number)
    }
}

pub fn has_magic(bytes: &[u8]) -> bool
    ensures { result ≡ does_have_magic bytes.now }
{
    bytes.starts_with(b"TNKO") || is_version_two(bytes)
}

pub fn is_long(bytes: &[u8]) -> bool
    ensures { result ≡ is_length_given bytes.now }
{
    names_offset(bytes) <= bytes.len() && bytes.len() == given_length(bytes)
}

fn is_byte_within(bytes: &[u8], n: u32) -> bool
    requires { 4 + n < length bytes.now }
    ensures { result ≡ is_byte_in_range bytes.now n }
{
    is_in_range(
        n,
        bytes[n.saturating_sub(5) as usize],
        bytes[4 + n as usize],
    )
}

/// The first of the description's bytes that is out of its range.
fn out_of_range(bytes: &[u8]) -> Option<u32>
    requires { numbers_at bytes.now ≤ length bytes.now }
    ensures value { result ≡ least_failing (is_byte_in_range bytes.now) (numbers_at bytes.now - 4) }
    ensures bound { IfSome result (λ n. n < 24) }
{
    (0..numbers_offset(bytes) as u32 - 4).find(|n| !is_byte_within(bytes, *n))
}

fn are_ones(busy_times: &[u8]) -> bool
    ensures { result ≡ are_all_ones busy_times.now }
{
    busy_times.iter().all(|n| *n == 1)
}

/// The place of the busy times, where the version is 2 and all of them are 1.
fn needless_version(bytes: &[u8]) -> Option<u32>
    requires { numbers_at bytes.now ≤ length bytes.now }
    ensures value { result ≡ needless_version_rule bytes.now }
    ensures bound { IfSome result (λ n. n < 24) }
{
    if is_version_two(bytes) && are_ones(&busy_times(bytes)) {
        Some(15)
    } else {
        None
    }
}

fn broken_place(bytes: &[u8]) -> Option<u32>
    requires { numbers_at bytes.now ≤ length bytes.now }
    ensures value { result ≡ broken_place_in bytes.now }
    ensures bound { IfSome result (λ n. n < 24) }
{
    if let Some(n) = out_of_range(bytes) {
        return Some(n);
    }
    needless_version(bytes)
}

pub fn description(bytes: &[u8]) -> Option<u32>
    requires { numbers_at bytes.now ≤ length bytes.now }
    ensures { result ≡ description_rule bytes.now }
{
    Some(4 + broken_place(bytes)?)
}

/// How many words block k has.
fn block_size(bytes: &[u8], k: usize) -> u16
    requires there { IsTrue (is_length_given bytes.now) }
    requires below { k < block_count bytes.now }
    ensures { result ≡ block_size_in bytes.now k }
{
    short_number(bytes, blocks_offset(bytes) + 10 * k + 8)
}

/// How many words the blocks have together.
fn block_words(bytes: &[u8]) -> u64
    requires there { IsTrue (is_length_given bytes.now) }
    requires few { block_count bytes.now ≤ 131072 }
    ensures { result ≡ sum_by (block_size_in bytes.now) (range_with_len 0 (block_count bytes.now)) }
{
    let mut sum = 0;
    for k in 0..size(bytes, BLOCKS) {
        sum += block_size(bytes, k) as u64;
    }
    sum
}

fn words_fit(bytes: &[u8]) -> bool
    requires there { IsTrue (is_length_given bytes.now) }
    requires few { block_count bytes.now ≤ 131072 }
    ensures { result ≡ do_words_fit bytes.now }
{
    header_number(bytes, WORDS) as u64 == block_words(bytes)
}

/// The byte at a place, or 0 behind the last.
fn byte_at(bytes: &[u8], place: usize) -> usize
    ensures value { result ≡ slice_index bytes.now place }
    ensures bound { result < 256 }
{
    match bytes.get(place) {
        Some(byte) => *byte as usize,
        None => 0,
    }
}

/// Where so many names end that begin behind the header, walked by their lengths.
fn names_end(bytes: &[u8], count: usize) -> usize
    requires { count ≤ 262144 }
    ensures { result ≡ names_at bytes.now + names_length count (drop (names_at bytes.now) bytes.now) }
{
    let mut end = names_offset(bytes);
    for _k in 0..count {
        end += 1 + byte_at(bytes, end);
    }
    end
}

fn names_fit(bytes: &[u8]) -> bool
    requires there { names_at bytes.now ≤ length bytes.now }
    requires few { name_count bytes.now ≤ 262144 }
    ensures { result ≡ do_names_fit bytes.now }
{
    names_end(bytes, size(bytes, NAMES)) == names_offset(bytes) + size(bytes, NAME_BYTES)
}

/// The first number of the header that is out of its range, or doesn't fit the tables.
pub fn header(bytes: &[u8]) -> Option<u32>
    requires { IsTrue (is_length_given bytes.now) }
    ensures { result ≡ header_rule bytes.now }
{
    let offset = numbers_offset(bytes);
    let at = |place: usize| Some((offset + place) as u32);
    if short_number(bytes, offset) > 256 {
        at(0)
    } else if size(bytes, NAMES) > 262_144 {
        at(NAMES)
    } else if size(bytes, BLOCKS) > 131_072 {
        at(BLOCKS)
    } else if size(bytes, WORDS) > 131_072 || !words_fit(bytes) {
        at(WORDS)
    } else if size(bytes, REFERENCES) > size(bytes, WORDS) {
        at(REFERENCES)
    } else if size(bytes, LABELS) > 262_144 {
        at(LABELS)
    } else if size(bytes, DATA) > 1_048_576 {
        at(DATA)
    } else if size(bytes, INITIAL) > size(bytes, DATA) {
        at(INITIAL)
    } else if !names_fit(bytes) {
        at(NAME_BYTES)
    } else {
        None
    }
}

/// The first broken field of block k.
fn block(bytes: &[u8], k: usize) -> Option<u32>
    requires there { IsTrue (is_length_given bytes.now) }
    requires below { k < block_count bytes.now }
    requires near { given_length_in bytes.now < 2 ^ 32 }
    ensures { result ≡ broken_in (block_fields bytes.now k) }
{
    let offset = blocks_offset(bytes) + 10 * k;
    let address = number(bytes, offset + 4);
    if number(bytes, offset) >= header_number(bytes, NAMES) {
        Some(offset as u32)
    } else if address != 0xFFFF_FFFF && address >= 131_072 {
        Some(offset as u32 + 4)
    } else if !is_between(1, 512, short_number(bytes, offset + 8) as u32) {
        Some(offset as u32 + 8)
    } else {
        None
    }
}

/// The first broken field of all blocks.
pub fn blocks(bytes: &[u8]) -> Option<u32>
    requires there { IsTrue (is_length_given bytes.now) }
    requires near { given_length_in bytes.now < 2 ^ 32 }
    ensures { result ≡ blocks_rule bytes.now }
{
    for k in 0..size(bytes, BLOCKS) {
        match block(bytes, k) {
            Some(offset) => return Some(offset),
            None => {}
        }
    }
    None
}

/// The first broken field of label k.
fn label(bytes: &[u8], k: usize) -> Option<u32>
    requires there { IsTrue (is_length_given bytes.now) }
    requires below { k < label_count bytes.now }
    requires near { given_length_in bytes.now < 2 ^ 32 }
    ensures { result ≡ broken_in (label_fields bytes.now k) }
{
    let offset = labels_offset(bytes) + 8 * k;
    if number(bytes, offset) >= header_number(bytes, NAMES) {
        Some(offset as u32)
    } else if number(bytes, offset + 4) > header_number(bytes, DATA) {
        Some(offset as u32 + 4)
    } else {
        None
    }
}

/// The first broken field of all labels.
pub fn labels(bytes: &[u8]) -> Option<u32>
    requires there { IsTrue (is_length_given bytes.now) }
    requires near { given_length_in bytes.now < 2 ^ 32 }
    ensures { result ≡ labels_rule bytes.now }
{
    for k in 0..size(bytes, LABELS) {
        match label(bytes, k) {
            Some(offset) => return Some(offset),
            None => {}
        }
    }
    None
}

/// The number of the word that reference k is.
fn referring(bytes: &[u8], k: usize) -> u32
    requires there { IsTrue (is_length_given bytes.now) }
    requires below { k < reference_count bytes.now }
    ensures { result ≡ referring_in bytes.now k }
{
    number(bytes, references_offset(bytes) + 8 * k)
}

/// Whether a word has the tail 0.
fn has_no_tail(bytes: &[u8], word: u32) -> bool
    requires there { IsTrue (is_length_given bytes.now) }
    requires below { word < word_count bytes.now }
    ensures { result ≡ nat_eq (tail_in bytes.now word) 0 }
{
    number(bytes, words_offset(bytes) + 8 * word as usize + 4) == 0
}

/// Whether reference k's word is there, has the tail 0 and stands behind that of the reference before.
fn is_referring(bytes: &[u8], k: usize) -> bool
    requires there { IsTrue (is_length_given bytes.now) }
    requires below { k < reference_count bytes.now }
    ensures { result ≡ is_referring_in bytes.now k }
{
    let word = referring(bytes, k);
    word < header_number(bytes, WORDS)
        && has_no_tail(bytes, word)
        && (k == 0 || referring(bytes, k - 1) < word)
}

/// The first broken field of reference k.
fn reference(bytes: &[u8], k: usize) -> Option<u32>
    requires there { IsTrue (is_length_given bytes.now) }
    requires below { k < reference_count bytes.now }
    requires near { given_length_in bytes.now < 2 ^ 32 }
    ensures { result ≡ broken_in (reference_fields bytes.now k) }
{
    let offset = references_offset(bytes) + 8 * k;
    if !is_referring(bytes, k) {
        Some(offset as u32)
    } else if number(bytes, offset + 4) >= header_number(bytes, NAMES) {
        Some(offset as u32 + 4)
    } else {
        None
    }
}

/// The first broken field of all references.
pub fn references(bytes: &[u8]) -> Option<u32>
    requires there { IsTrue (is_length_given bytes.now) }
    requires near { given_length_in bytes.now < 2 ^ 32 }
    ensures { result ≡ references_rule bytes.now }
{
    for k in 0..size(bytes, REFERENCES) {
        match reference(bytes, k) {
            Some(offset) => return Some(offset),
            None => {}
        }
    }
    None
}

/// The name whose length stands at a place.
pub fn name_at(bytes: &[u8], place: usize) -> &[u8]
    requires { place + 1 + slice_index bytes.now place ≤ length bytes.now }
    ensures { result.now ≡ take (slice_index bytes.now place) (drop (place + 1) bytes.now) }
{
    let count = bytes[place] as usize;
    &bytes[place + 1..place + 1 + count]
}

/// Adds a name to those seen, and says whether it is new.
fn is_added<'a>(seen: &mut HashSet<&'a [u8]>, name: &'a [u8]) -> Result<bool, NoMemory>
    ensures added { IfOk result (λ added. added ≡ not (contains_by (λ k. bytes_eq name.entry.now k.now) seen.old)) }
    ensures after { IfOk result (λ _. Grown seen.old seen.new name.entry.now) }
{
    Ok(seen.insert(name)?)
}

/// Whether a name has 1 to 32 bytes.
fn is_short(name: &[u8]) -> bool
    ensures { result ≡ is_number_between 1 32 (length name.now) }
{
    1 <= name.len() && name.len() <= 32
}

/// The first name that is too short, too long or not new.
pub fn names(alloc: Global, bytes: &[u8]) -> Result<Option<u32>, NoMemory>
    requires there { IsTrue (is_length_given bytes.now) }
    requires walked { IsTrue (do_names_fit bytes.now) }
    requires few { name_count bytes.now ≤ 262144 }
    ensures { IfOk result (λ r. r ≡ names_rule bytes.now) }
{
    let count = size(bytes, NAMES);
    let mut seen: HashSet<&[u8]> = HashSet::with_capacity(alloc, count)?;
    let mut end = names_offset(bytes);
    for _k in 0..count {
        let name = name_at(bytes, end);
        if !is_short(name) {
            return Ok(Some(end as u32));
        }
        if !is_added(&mut seen, name)? {
            return Ok(Some(end as u32));
        }
        end += 1 + name.len();
    }
    Ok(None)
}
