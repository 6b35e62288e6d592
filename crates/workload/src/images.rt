// Images that are generated from a number.
ghost use Rattle.std.specs.Prelude.{◌≡◌, ◌≤◌, ◌+◌, ◌*◌, ◌-◌, [], ◌∷◌, ◌++◌, length, None, IfOk, OnOk};
ghost use Rattle.image_format.specs.Bytes.{bytes_of};
ghost use Rattle.image_format.specs.Image.{image_in};
ghost use Rattle.image_format.specs.Parts.{image_of as image_of_parts};
ghost use Rattle.image_check.specs.Rules.{first_broken};
ghost use Rattle.workload.specs.Draws.{after};
ghost use Rattle.workload.specs.Layout.{rows_from, words_from};
ghost use Rattle.workload.specs.Adding.{placed_words};
ghost use Rattle.workload.specs.Generated.{ending, block_words, all_blocks, generated as generated_from, IsSize};

use super::blocks::push_block;
use super::draws::Draws;
use super::layout::{WORDS, fill_page, push_gap};
use image_check::{Accepted, CheckFault, check};
use image_format::{Parts, Row, write_parts};
use machine_desc::{Fixed, Mdes, T1};
use std::alloc::{AllocError, Global};
use tnk_base::NoMemory;

/// Room for the words of all pages: a page has as many blocks as fit on it, and the last block has one word more.
fn room(blocks: u16, ops: u16) -> usize
    requires { IsSize blocks ops }
{
    WORDS * (blocks as usize / (WORDS / ops as usize) + 1)
}

/// How many words a block of so many operations has.
fn word_count(ops: u16, last: bool) -> u16
    requires { ops ≤ 500 }
    ensures { result ≡ ops + length (ending last) }
{
    if last { ops + 1 } else { ops }
}

/// The block `i` at its place, with its row.
fn add_block(
    rows: &mut Vec<Row>,
    words: &mut Vec<u64>,
    draws: &mut Draws,
    i: u16,
    ops: u16,
    last: bool,
) -> Result<(), AllocError>
    requires some { 1 ≤ ops }
    requires few { ops ≤ 500 }
    requires near { length words.old.items ≤ 131072 }
    ensures rows { OnOk result (rows.new.items ≡ rows.old.items ++
        rows_from (length words.old.items) (block_words i ops last draws.old.x ∷ [])) }
    ensures words { OnOk result (words.new.items ≡ words.old.items ++
        placed_words (length words.old.items) (block_words i ops last draws.old.x)) }
    ensures state { OnOk result (draws.new.x ≡ after (5 * (ops - 1)) draws.old.x) }
{
    let count = word_count(ops, last);
    push_gap(words, count)?;
    let entry = words.len() as u32;
    rows.push(Row { entry, count })?;
    push_block(words, draws, i, ops, last)
}

/// All blocks, and zeros behind the last one.
fn add_blocks(
    rows: &mut Vec<Row>,
    words: &mut Vec<u64>,
    number: u32,
    blocks: u16,
    ops: u16,
) -> Result<(), AllocError>
    requires size { IsSize blocks ops }
    requires no_rows { rows.old.items ≡ [] }
    requires no_words { words.old.items ≡ [] }
    ensures rows { OnOk result (rows.new.items ≡ rows_from 0 (all_blocks number blocks ops)) }
    ensures words { OnOk result (words.new.items ≡ words_from 0 (all_blocks number blocks ops)) }
{
    let mut draws = Draws { x: number };
    for i in 0..blocks {
        add_block(rows, words, &mut draws, i, ops, i + 1 == blocks)?;
    }
    fill_page(words)
}

/// The parts of the image.
fn parts(alloc: Global, number: u32, blocks: u16, ops: u16) -> Result<Parts, NoMemory>
    requires { IsSize blocks ops }
    ensures { IfOk result (λ parts. image_of_parts parts ≡ generated_from number blocks ops) }
{
    let mut rows = Vec::with_capacity(alloc, blocks as usize)?;
    let mut words = Vec::with_capacity(alloc, room(blocks, ops))?;
    add_blocks(&mut rows, &mut words, number, blocks, ops)?;
    Ok(Parts {
        description: Mdes::new(T1::WIDTH, T1::UNITS, T1::LATENCY).unwrap(),
        entry: 0,
        rows,
        memory: 256,
        init: Vec::new(alloc),
        words,
    })
}

/// The file of the image of a number, with 1 to 256 blocks of 1 to 500 operations, made for `t1`. It is accepted. It fails
/// only for want of memory.
pub fn image_of(alloc: Global, number: u32, blocks: u16, ops: u16) -> Result<Vec<u8>, NoMemory>
    requires { IsSize blocks ops }
    ensures file { IfOk result (λ bytes. bytes.items ≡ bytes_of (generated_from number blocks ops)) }
    ensures image { IfOk result (λ bytes. image_in bytes.items ≡ generated_from number blocks ops) }
    ensures accepted { IfOk result (λ bytes. first_broken bytes.items ≡ None) }
{
    let parts = parts(alloc, number, blocks, ops)?;
    write_parts(alloc, &parts)
}

/// The same file, with the image that it holds, which is ready to be run. It fails only for want of memory.
pub fn generated(
    alloc: Global,
    number: u32,
    blocks: u16,
    ops: u16,
) -> Result<(Vec<u8>, Accepted), NoMemory>
    requires { IsSize blocks ops }
    ensures file { IfOk result (λ made. made.0.items ≡ bytes_of (generated_from number blocks ops)) }
    ensures image { IfOk result (λ made. made.1 ≡ generated_from number blocks ops) }
{
    let bytes = image_of(alloc, number, blocks, ops)?;
    match check(alloc, &bytes) {
        Ok(image) => Ok((bytes, image)),
        Err(CheckFault::NoMemory) => Err(NoMemory),
        Err(CheckFault::Refused(_)) => unreachable!(),
    }
}
