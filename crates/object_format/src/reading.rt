// The object in a file.
ghost use Rattle.std.specs.Prelude.{◌≡◌, ◌≤◌, ◌<◌, ◌+◌, ◌*◌, ◌^◌, ◌/◌, length, drop, take, IsTrue, IfOk, MatchResult, IfSome, None};
ghost use Rattle.byteorder.specs.Endian.{big_number};
ghost use Rattle.machine_desc.specs.Value.{description_of};
ghost use Rattle.image_format.specs.Layout.{words as words_in};
ghost use Rattle.object_format.specs.Layout.{names_offset as names_at, block as block_in, blocks as blocks_in, pair as pair_in, pairs as pairs_in, names as names_in, names_length, fixed as fixed_at, given_length as given_length_in, module_in};
ghost use Rattle.object_format.specs.Bytes.{bytes_of};
ghost use Rattle.object_format.specs.Module.{IsModule};
ghost use Rattle.object_format.specs.Objects.{module_of};
ghost use Rattle.object_format.specs.Readable.{IsReadable};
ghost use Rattle.object_format.specs.Rules.{first_broken as first_broken_rule, broken_field as broken_field_rule, is_length_given, IsObjectFault};

use super::numbers::{
    BLOCKS, DATA, INITIAL, LABELS, NAMES, REFERENCES, WORDS, blocks_offset, busy_times,
    header_number, initial_offset, labels_offset, latencies, names_offset, number, numbers_offset,
    references_offset, short_number, size, units, words_offset,
};
use super::rules::{
    blocks as broken_block, description as broken_number, has_magic, header, is_long,
    labels as broken_label, name_at, names as broken_name, references as broken_reference,
};
use super::{ObjBlock, Object, ObjectFault};
use byteorder::{BigEndian, ByteOrder};
use machine_desc::Mdes;
use std::alloc::{AllocError, Global};
use tnk_base::{Name, NoMemory};

/// The least offset of a field whose rule is broken.
fn broken_field(alloc: Global, bytes: &[u8]) -> Result<Option<u32>, NoMemory>
    requires { IsTrue (is_length_given bytes.now) }
    ensures { IfOk result (λ r. r ≡ broken_field_rule bytes.now) }
{
    if let Some(offset) = broken_number(bytes) {
        return Ok(Some(offset));
    }
    if let Some(offset) = header(bytes) {
        return Ok(Some(offset));
    }
    if let Some(offset) = broken_name(alloc, bytes)? {
        return Ok(Some(offset));
    }
    if let Some(offset) = broken_block(bytes) {
        return Ok(Some(offset));
    }
    if let Some(offset) = broken_reference(bytes) {
        return Ok(Some(offset));
    }
    Ok(broken_label(bytes))
}

/// The first broken rule.
fn first_broken(alloc: Global, bytes: &[u8]) -> Result<Option<ObjectFault>, NoMemory>
    ensures { IfOk result (λ r. r ≡ first_broken_rule bytes.now) }
{
    if !has_magic(bytes) {
        return Ok(Some(ObjectFault::Magic));
    }
    if !is_long(bytes) {
        return Ok(Some(ObjectFault::Length));
    }
    match broken_field(alloc, bytes)? {
        None => Ok(None),
        Some(offset) => Ok(Some(ObjectFault::Field(offset))),
    }
}

fn fixed(address: u32) -> Option<u32>
    ensures { result ≡ fixed_at address }
{
    if address == 0xFFFF_FFFF {
        None
    } else {
        Some(address)
    }
}

fn block(bytes: &[u8]) -> ObjBlock
    requires { 10 ≤ length bytes.now }
    ensures { result ≡ block_in bytes.now }
{
    ObjBlock {
        name: number(bytes, 0),
        at: fixed(number(bytes, 4)),
        count: short_number(bytes, 8),
    }
}

fn blocks(alloc: Global, bytes: &[u8], count: usize) -> Result<Vec<ObjBlock>, AllocError>
    requires { 10 * count ≤ length bytes.now }
    ensures { IfOk result (λ blocks. blocks.items ≡ blocks_in count bytes.now) }
{
    let mut blocks = Vec::with_capacity(alloc, count)?;
    for k in 0..count {
        blocks.push(block(&bytes[10 * k..]))?;
    }
    Ok(blocks)
}

fn pair(bytes: &[u8]) -> (u32, u32)
    requires { 8 ≤ length bytes.now }
    ensures { result ≡ pair_in bytes.now }
{
    (number(bytes, 0), number(bytes, 4))
}

fn pairs(alloc: Global, bytes: &[u8], count: usize) -> Result<Vec<(u32, u32)>, AllocError>
    requires { 8 * count ≤ length bytes.now }
    ensures { IfOk result (λ pairs. pairs.items ≡ pairs_in count bytes.now) }
{
    let mut pairs = Vec::with_capacity(alloc, count)?;
    for k in 0..count {
        pairs.push(pair(&bytes[8 * k..]))?;
    }
    Ok(pairs)
}

fn word(bytes: &[u8]) -> u64
    requires { 8 ≤ length bytes.now }
    ensures { result ≡ big_number 8 bytes.now }
{
    BigEndian::read_u64(bytes)
}

fn words(alloc: Global, bytes: &[u8], count: usize) -> Result<Vec<u64>, AllocError>
    requires { 8 * count ≤ length bytes.now }
    ensures { IfOk result (λ words. words.items ≡ words_in count bytes.now) }
{
    let mut words = Vec::with_capacity(alloc, count)?;
    for k in 0..count {
        words.push(word(&bytes[8 * k..]))?;
    }
    Ok(words)
}

/// So many names, one after another.
fn names(alloc: Global, bytes: &[u8], count: usize) -> Result<Vec<Name>, NoMemory>
    requires few { count ≤ 262144 }
    requires there { names_at bytes.now + names_length count (drop (names_at bytes.now) bytes.now) ≤ length bytes.now }
    ensures { IfOk result (λ names. names.items ≡ names_in count (drop (names_at bytes.now) bytes.now)) }
{
    let mut names = Vec::with_capacity(alloc, count)?;
    let mut end = names_offset(bytes);
    for _k in 0..count {
        let name = name_at(bytes, end);
        names.push(Name::of(alloc, name)?)?;
        end += 1 + name.len();
    }
    Ok(names)
}

fn description(bytes: &[u8]) -> Mdes
    requires { IsReadable bytes.now }
    ensures { description_of result ≡ (module_in bytes.now).description }
{
    Mdes::with_busy(bytes[4], units(bytes), latencies(bytes), busy_times(bytes)).unwrap()
}

/// The block table.
fn table(alloc: Global, bytes: &[u8]) -> Result<Vec<ObjBlock>, AllocError>
    requires { IsReadable bytes.now }
    ensures { IfOk result (λ blocks. blocks.items ≡ (module_in bytes.now).blocks) }
{
    blocks(
        alloc,
        behind(bytes, blocks_offset(bytes)),
        size(bytes, BLOCKS),
    )
}

/// So many bytes from a place on.
fn part(bytes: &[u8], place: usize, count: usize) -> &[u8]
    requires { place + count ≤ length bytes.now }
    ensures { result.now ≡ take count (drop place bytes.now) }
{
    &bytes[place..place + count]
}

/// The bytes behind a place.
fn behind(bytes: &[u8], place: usize) -> &[u8]
    requires { place ≤ length bytes.now }
    ensures { result.now ≡ drop place bytes.now }
{
    &bytes[place..]
}

/// The references.
fn references(alloc: Global, bytes: &[u8]) -> Result<Vec<(u32, u32)>, AllocError>
    requires { IsReadable bytes.now }
    ensures { IfOk result (λ pairs. pairs.items ≡ (module_in bytes.now).references) }
{
    pairs(
        alloc,
        behind(bytes, references_offset(bytes)),
        size(bytes, REFERENCES),
    )
}

/// The labels.
fn labels(alloc: Global, bytes: &[u8]) -> Result<Vec<(u32, u32)>, AllocError>
    requires { IsReadable bytes.now }
    ensures { IfOk result (λ pairs. pairs.items ≡ (module_in bytes.now).labels) }
{
    pairs(
        alloc,
        behind(bytes, labels_offset(bytes)),
        size(bytes, LABELS),
    )
}

/// The data's first bytes.
fn initial(alloc: Global, bytes: &[u8]) -> Result<Vec<u8>, AllocError>
    requires { IsReadable bytes.now }
    ensures { IfOk result (λ initial. initial.items ≡ (module_in bytes.now).initial) }
{
    part(bytes, initial_offset(bytes), size(bytes, INITIAL)).to_vec(alloc)
}

/// The words of all blocks.
fn code(alloc: Global, bytes: &[u8]) -> Result<Vec<u64>, AllocError>
    requires { IsReadable bytes.now }
    ensures { IfOk result (λ words. words.items ≡ (module_in bytes.now).words) }
{
    words(
        alloc,
        behind(bytes, words_offset(bytes)),
        size(bytes, WORDS),
    )
}

/// The object of a file that can be read.
fn object(alloc: Global, bytes: &[u8]) -> Result<Object, NoMemory>
    requires { IsReadable bytes.now }
    ensures { IfOk result (λ o. module_of o ≡ module_in bytes.now) }
{
    Ok(Object {
        desc: description(bytes),
        pages: short_number(bytes, numbers_offset(bytes)),
        names: names(alloc, bytes, size(bytes, NAMES))?,
        blocks: table(alloc, bytes)?,
        words: code(alloc, bytes)?,
        refs: references(alloc, bytes)?,
        labels: labels(alloc, bytes)?,
        size: header_number(bytes, DATA),
        init: initial(alloc, bytes)?,
    })
}

/// The object of a file, or the first broken rule. Written again, the object gives the same bytes.
pub fn read_object(alloc: Global, bytes: &[u8]) -> Result<Object, ObjectFault>
    ensures read { MatchResult result (λ o. (first_broken_rule bytes.now ≡ None) × (module_of o ≡ module_in bytes.now)) (IsObjectFault bytes.now) }
    ensures rules { IfOk result (λ o. IsModule (module_of o)) }
    ensures written_again { IfOk result (λ o. bytes_of (module_of o) ≡ bytes.now) }
{
    match first_broken(alloc, bytes)? {
        None => Ok(object(alloc, bytes)?),
        Some(fault) => Err(fault),
    }
}
