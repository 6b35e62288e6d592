// Accepted images: their tables, pages and programs, and which have the same bytes. The words were put together from the
// tables of the format, apart from the code, and what is expected was worked out by hand.
ghost use Rattle.std.specs.Prelude.{IfSome};
ghost use Rattle.image_format.specs.Image.{IsWithinLimits};
ghost use Rattle.image_format.specs.Parts.{image_of};
ghost use Rattle.timed_meaning.specs.Program.{program_of};
ghost use Rattle.timed_meaning.specs.Sound.{IsSound};

use super::descriptions::{Numbers, SHORT, T1, T2, WIDER, described};
use super::files::change;
use image_check::{Accepted, check, program};
use image_format::{Parts, Row, write_parts};
use latency_deps::GoodBlock;
use machine_desc::Generation;
use operation::Op;
use std::alloc::{AllocError, Global};
use timed_meaning::{Program, TimedBlock};

/// `addi r1, r0, 65`.
pub(crate) const ADD: u64 = 0x8008_8020_0000_0041;

/// `outb r1`.
pub(crate) const PUT: u64 = 0x901C_8001_0000_0000;

/// `outb r1` with a pause of 3.
pub(crate) const PUT_AND_WAIT: u64 = 0x90DC_8001_0000_0000;

/// `pbr b1, 0`.
const PREPARE: u64 = 0x8010_8020_0000_0000;

/// `bru b1`.
const BRANCH: u64 = 0xA028_0001_0000_0000;

/// `halt r0`.
const HALT: u64 = 0xA02A_0000_0000_0000;

/// `halt r1`.
const HALT_R1: u64 = 0xA02A_0001_0000_0000;

/// A description, the entry, the rows, and the words from the places on.
pub(crate) type Image = (
    Numbers,
    u32,
    &'static [(u32, u16)],
    &'static [(u16, &'static [u64])],
);

fn table(alloc: Global, rows: &[(u32, u16)]) -> Result<Vec<Row>, AllocError> {
    let mut table = Vec::new(alloc);
    for (entry, count) in rows {
        table.push(Row {
            entry: *entry,
            count: *count,
        })?;
    }
    Ok(table)
}

/// The words of so many pages, 0 but for those that are placed.
fn words(alloc: Global, pages: u16, placed: &[(u16, &[u64])]) -> Result<Vec<u64>, AllocError> {
    let mut words = vec![in alloc; 0; 512 * pages as usize]?;
    for (begin, those) in placed {
        for (place, word) in words.iter_mut().skip(*begin as usize).zip(*those) {
            *place = *word;
        }
    }
    Ok(words)
}

/// The initial bytes of each image.
const INIT: [u8; 2] = [7, 9];

/// The parts of an image of one page or two, with eight bytes of memory.
fn parts(alloc: Global, pages: u16, image: &Image) -> Option<Parts>
    ensures { IfSome result (λ p. IsWithinLimits (image_of p)) }
{
    let (numbers, entry, rows, placed) = *image;
    let description = described(&numbers)?;
    let rows = table(alloc, rows).ok()?;
    let words = words(alloc, pages, placed).ok()?;
    let init = INIT.to_vec(alloc).ok()?;
    let is_one_or_two = words.len() == 512 || words.len() == 1024;
    if rows.is_empty() || rows.len() > 512 || !is_one_or_two || init.len() != 2 {
        return None;
    }
    Some(Parts {
        description,
        entry,
        rows,
        memory: 8,
        init,
        words,
    })
}

/// The image of so many pages, with some bytes changed, where it is accepted.
pub(crate) fn accepted(
    alloc: Global,
    pages: u16,
    image: &Image,
    changes: &[(usize, u8)],
) -> Option<Accepted> {
    let parts = parts(alloc, pages, image)?;
    let mut bytes = write_parts(alloc, &parts).ok()?;
    change(&mut bytes, changes);
    check(alloc, &bytes).ok()
}

pub(crate) const ONE_ROW: Image = (T1, 0, &[(0, 3)], &[(0, &[ADD, PUT, HALT])]);

pub(crate) const TWO_ROWS: Image = (T1, 0, &[(0, 2), (2, 1)], &[(0, &[ADD, PUT, HALT])]);

/// Two pages: on the first two blocks, on the second one, which goes back to the first.
pub(crate) const TWO_PAGES: Image = (
    T1,
    3,
    &[(0, 2), (3, 1), (512, 3)],
    &[
        (0, &[ADD, PUT_AND_WAIT, 0, HALT]),
        (512, &[PREPARE, ADD, BRANCH]),
    ],
);

/// The entry of a block, the next entry, the issue cycle and the latency of each operation, and the end.
type Timed = (u32, Option<u32>, &'static [(u32, u8)], u32);

/// An image of so many pages, and the blocks of its program.
type Meant = (u16, Image, &'static [Timed]);

const PROGRAMS: [Meant; 6] = [
    (1, ONE_ROW, &[(0, None, &[(0, 1), (1, 1), (2, 1)], 3)]),
    (
        1,
        (T1, 510, &[(510, 2)], &[(510, &[ADD, HALT])]),
        &[(510, None, &[(0, 1), (1, 1)], 2)],
    ),
    // Three compares of a MultiOp that write p1 together, and what follows.
    (
        1,
        (
            SHORT,
            0,
            &[(0, 6)],
            &[(
                0,
                &[
                    0x9824_0020_0000_0200,
                    0x1824_0020_0001_0200,
                    0x1824_0020_0002_0200,
                    0x8008_8420_0000_0041,
                    PUT,
                    HALT,
                ],
            )],
        ),
        &[(
            0,
            None,
            &[(0, 1), (0, 1), (0, 1), (1, 1), (2, 1), (3, 1)],
            4,
        )],
    ),
    (
        1,
        (T1, 2, &[(0, 2), (2, 1)], &[(0, &[ADD, PUT, HALT])]),
        &[(0, Some(2), &[(0, 1), (1, 1)], 2), (2, None, &[(0, 1)], 1)],
    ),
    (
        2,
        TWO_PAGES,
        &[
            (0, Some(3), &[(0, 1), (1, 1)], 5),
            (3, Some(512), &[(0, 1)], 1),
            (512, None, &[(0, 1), (1, 1), (2, 1)], 3),
        ],
    ),
    // `addi r1, r0, 65` with a pause of 2, and `halt r0` with one of 1.
    (
        1,
        (
            T2,
            0,
            &[(0, 2)],
            &[(0, &[0x8088_8020_0000_0041, 0xA06A_0000_0000_0000])],
        ),
        &[(0, None, &[(0, 1), (3, 2)], 5)],
    ),
];

fn has_times(block: &TimedBlock, times: &[(u32, u8)]) -> bool {
    for (op, (at, latency)) in block.ops.iter().zip(times) {
        if op.at != *at || op.latency != *latency {
            return false;
        }
    }
    block.ops.len() == times.len()
}

fn is_block(block: &TimedBlock, case: &Timed) -> bool {
    let (entry, next, times, end) = *case;
    block.entry == entry && block.next == next && block.end == end && has_times(block, times)
}

fn are_blocks(blocks: &[TimedBlock], cases: &[Timed]) -> bool {
    for (block, case) in blocks.iter().zip(cases) {
        if !is_block(block, case) {
            return false;
        }
    }
    blocks.len() == cases.len()
}

/// The program of an image, where it is accepted.
pub(crate) fn meant(alloc: Global, pages: u16, image: &Image) -> Option<Program>
    ensures { IfSome result (λ p. IsSound (program_of p)) }
{
    program(alloc, &accepted(alloc, pages, image, &[])?).ok()
}

fn has_program(alloc: Global, case: &Meant) -> bool {
    let (pages, image, blocks) = *case;
    let Some(program) = meant(alloc, pages, &image) else {
        return false;
    };
    (program.entry, program.memory) == (image.1, 8)
        && program.init.as_slice() == INIT.as_slice()
        && are_blocks(&program.blocks, blocks)
}

#[test]
fn images_and_their_programs(rt: HostRuntime) {
    for (row, case) in PROGRAMS.iter().enumerate() {
        assert!(rt; has_program(rt.alloc(), case), "row {row}");
    }
}

/// The page of a block, its number and its place there, its words, and how many cycles it has.
type Placed = (u16, u16, u16, &'static [u64], u32);

const PLACED: [Placed; 3] = [
    (0, 0, 0, &[ADD, PUT_AND_WAIT], 5),
    (0, 1, 3, &[HALT], 1),
    (1, 0, 0, &[PREPARE, ADD, BRANCH], 3),
];

fn has_words(block: &GoodBlock, words: &[u64]) -> bool {
    for (i, word) in (0..512).zip(words) {
        if i >= block.count() || block.word(i) != *word {
            return false;
        }
    }
    block.count() as usize == words.len()
}

fn is_placed(image: &Accepted, case: &Placed) -> bool {
    let (n, k, place, words, end) = *case;
    if n as usize >= image.parts().words.len() / 512 || k >= image.page(n).blocks() {
        return false;
    }
    let page = image.page(n);
    page.place(k) == place && page.block(k).end() == end && has_words(page.block(k), words)
}

#[test]
fn table_and_pages_of_an_image(rt: HostRuntime) {
    let image = accepted(rt.alloc(), 2, &TWO_PAGES, &[]).expect(&rt, "no rule is broken");
    assert!(rt; image.parts().entry == 3);
    assert!(rt; image.parts().description.width() == 2);
    assert!(rt; image.parts().words.len() == 1024);
    assert!(rt; image.table().rows() == 3);
    assert!(rt; image.table().block_of(512) == Some(2));
    assert!(rt; (image.page(0).blocks(), image.page(1).blocks()) == (2, 1));
    for (row, case) in PLACED.iter().enumerate() {
        assert!(rt; is_placed(&image, case), "row {row}");
    }
}

#[test]
fn the_operation_of_a_program(rt: HostRuntime) {
    let program = meant(rt.alloc(), 2, &TWO_PAGES).expect(&rt, "no rule is broken");
    assert!(rt; program.blocks.len() == 3);
    let timed = program.blocks[2].ops.get(2).expect(&rt, "three operations");
    assert!(rt; timed.guarded.op == Op::Bru(1));
}

/// Two images, changes of the second one's bytes, and whether they have the same bytes.
type Compared = (Image, Image, &'static [(usize, u8)], bool);

const COMPARED: [Compared; 7] = [
    (TWO_ROWS, TWO_ROWS, &[], true),
    (
        TWO_ROWS,
        (WIDER, 0, &[(0, 2), (2, 1)], &[(0, &[ADD, PUT, HALT])]),
        &[],
        false,
    ),
    (
        TWO_ROWS,
        (T1, 2, &[(0, 2), (2, 1)], &[(0, &[ADD, PUT, HALT])]),
        &[],
        false,
    ),
    (TWO_ROWS, ONE_ROW, &[], false),
    (
        TWO_ROWS,
        (T1, 0, &[(0, 2), (2, 1)], &[(0, &[ADD, PUT, HALT_R1])]),
        &[],
        false,
    ),
    // The low bytes of the memory's size and of the initial bytes.
    (ONE_ROW, ONE_ROW, &[(19, 9)], false),
    (ONE_ROW, ONE_ROW, &[(46, 1)], false),
];

fn has_same_bytes(alloc: Global, case: &Compared) -> bool {
    let (first, second, changes, is_same) = *case;
    let Some(first) = accepted(alloc, 1, &first, &[]) else {
        return false;
    };
    let Some(second) = accepted(alloc, 1, &second, changes) else {
        return false;
    };
    first.same_bytes(&first)
        && first.same_bytes(&second) == is_same
        && second.same_bytes(&first) == is_same
}

#[test]
fn images_with_the_same_bytes(rt: HostRuntime) {
    for (row, case) in COMPARED.iter().enumerate() {
        assert!(rt; has_same_bytes(rt.alloc(), case), "row {row}");
    }
}
