// Image files and their parts: one image of a block of three words, and files with one or two faults. The expected answers
// were worked out by hand.
use image_format::{FormatFault, FormatRule, Parts, Row, read_parts, same, write_parts};
use machine_desc::Mdes;
use std::alloc::{AllocError, Global};

/// The header, the row and the three words of a file of version 1 with one page; 509 words of 0 follow.
const BEGIN: [u8; 69] = [
    0x54, 0x4e, 0x4b, 0x49, 0x00, 0x01, 0x00, 0x01, 0x00, 0x00, 0x00, 0x01, 0x00, 0x00, 0x00, 0x00,
    0x00, 0x00, 0x00, 0x00, 0x00, 0x00, 0x00, 0x00, 0x02, 0x01, 0x01, 0x01, 0x01, 0x01, 0x01, 0x03,
    0x08, 0x02, 0x01, 0x01, 0x01, 0x01, 0x01, 0x00, 0x00, 0x00, 0x00, 0x00, 0x03, 0x80, 0x08, 0x80,
    0x20, 0x00, 0x00, 0x00, 0x41, 0x90, 0x1c, 0x80, 0x01, 0x00, 0x00, 0x00, 0x00, 0xa0, 0x2a, 0x00,
    0x00, 0x00, 0x00, 0x00, 0x00,
];

/// Which version a file has, and in version 2 with which busy times.
type Version = Option<[u8; 9]>;

const ONE: Version = None;

/// A product keeps its unit busy for three cycles.
const TWO: Version = Some([1, 3, 1, 1, 1, 1, 1, 1, 1]);

/// Puts bytes in at a place.
fn put_in(bytes: &mut Vec<u8>, place: usize, those: &[u8]) -> Result<(), AllocError> {
    for byte in those.iter().rev() {
        if place <= bytes.len() {
            bytes.insert(place, *byte)?;
        }
    }
    Ok(())
}

/// Gives some bytes other values.
pub(crate) fn change(bytes: &mut [u8], changes: &[(usize, u8)]) {
    for (offset, value) in changes {
        if let Some(place) = bytes.get_mut(*offset) {
            *place = *value;
        }
    }
}

/// The file, with some of its bytes changed.
fn file(alloc: Global, version: Version, changes: &[(usize, u8)]) -> Result<Vec<u8>, AllocError> {
    let mut bytes = BEGIN.to_vec(alloc)?;
    bytes.resize(4141, 0)?;
    if let Some(busy_times) = version {
        change(&mut bytes, &[(5, 2)]);
        put_in(&mut bytes, 39, &busy_times)?;
    }
    change(&mut bytes, changes);
    Ok(bytes)
}

/// A version, changes, and bytes of initial memory; the entry and the size of the memory.
type Read = (Version, &'static [(usize, u8)], &'static [u8], u32, u32);

const READ: [Read; 3] = [
    (ONE, &[(15, 7), (12, 2)], &[], 0x0200_0007, 0),
    (ONE, &[(19, 3), (23, 2)], &[7, 8], 0, 3),
    (TWO, &[(15, 7), (12, 2)], &[], 0x0200_0007, 0),
];

/// The first words.
const CODE: [u64; 4] = [
    0x8008_8020_0000_0041,
    0x901c_8001_0000_0000,
    0xa02a_0000_0000_0000,
    0,
];

/// Compares the description, the row and the words, which are the same in all these files but for the busy times.
fn has_code(parts: &Parts, busy_times: [u8; 9]) -> bool {
    let description = Mdes::with_busy(2, [1; 5], [1, 3, 8, 2, 1, 1, 1, 1, 1], busy_times);
    Some(parts.description) == description
        && parts.rows.as_slice() == [Row { entry: 0, count: 3 }].as_slice()
        && parts.words.len() == 512
        && &parts.words[..4] == CODE.as_slice()
}

/// The file of a row.
fn read_file(alloc: Global, case: &Read) -> Result<Vec<u8>, AllocError> {
    let (version, changes, init, _, _) = *case;
    let mut bytes = file(alloc, version, changes)?;
    put_in(&mut bytes, 45, init)?;
    Ok(bytes)
}

fn is_read(alloc: Global, case: &Read) -> bool {
    let (version, _, init, entry, memory) = *case;
    let Ok(bytes) = read_file(alloc, case) else {
        return false;
    };
    let Ok(parts) = read_parts(alloc, &bytes) else {
        return false;
    };
    let Ok(written) = write_parts(alloc, &parts) else {
        return false;
    };
    (parts.entry, parts.memory) == (entry, memory)
        && parts.init.as_slice() == init
        && has_code(&parts, version.unwrap_or([1; 9]))
        && written == bytes
}

#[test]
fn parts_are_read_and_written(rt: HostRuntime) {
    for (row, case) in READ.iter().enumerate() {
        assert!(rt; is_read(rt.alloc(), case), "row {row}");
    }
}

/// A version and a change; whether the parts are those of the file of version 1 with a byte of memory.
const SAME: [(Version, (usize, u8), bool); 10] = [
    (ONE, (19, 1), true),
    // The entry, the row, the memory, a unit count, a latency, two words, and the busy times.
    (ONE, (15, 1), false),
    (ONE, (42, 1), false),
    (ONE, (44, 4), false),
    (ONE, (19, 2), false),
    (ONE, (25, 2), false),
    (ONE, (38, 2), false),
    (ONE, (52, 0x42), false),
    (ONE, (4140, 1), false),
    (TWO, (19, 1), false),
];

/// The parts of a file with a byte of memory that isn't given.
fn with_memory(alloc: Global, version: Version, change: (usize, u8)) -> Option<Parts> {
    let bytes = file(alloc, version, &[(19, 1), change]).ok()?;
    read_parts(alloc, &bytes).ok()
}

fn is_same(alloc: Global, parts: &Parts, case: &(Version, (usize, u8), bool)) -> bool {
    let (version, change, is_same) = *case;
    match with_memory(alloc, version, change) {
        Some(other) => same(parts, &other) == is_same,
        None => false,
    }
}

#[test]
fn parts_are_the_same(rt: HostRuntime) {
    let parts = with_memory(rt.alloc(), ONE, (19, 1)).expect(&rt, "no rule is broken");
    for (row, case) in SAME.iter().enumerate() {
        assert!(rt; is_same(rt.alloc(), &parts, case), "row {row}");
    }
}

/// A version and changes, with the first broken rule and its place.
type Faulty = (Version, &'static [(usize, u8)], FormatRule, u32);

const FAULTY: [Faulty; 29] = [
    (ONE, &[(0, 0x55)], FormatRule::Magic, 0),
    (ONE, &[(5, 9), (0, 0x55)], FormatRule::Magic, 0),
    (ONE, &[(5, 9)], FormatRule::Version, 0),
    (ONE, &[(7, 0), (5, 9)], FormatRule::Version, 0),
    (ONE, &[(7, 0)], FormatRule::Limits, 0),
    (ONE, &[(6, 1), (24, 0)], FormatRule::Limits, 0),
    (ONE, &[(11, 0)], FormatRule::Limits, 1),
    (ONE, &[(10, 2)], FormatRule::Limits, 1),
    (ONE, &[(17, 16), (19, 1)], FormatRule::Limits, 2),
    (ONE, &[(16, 1), (23, 1)], FormatRule::Limits, 2),
    (ONE, &[(23, 1), (24, 0)], FormatRule::Limits, 3),
    (ONE, &[(7, 2), (24, 0)], FormatRule::Length, 0),
    (ONE, &[(11, 2), (24, 0)], FormatRule::Length, 0),
    (ONE, &[(24, 0), (25, 9)], FormatRule::Description, 0),
    (ONE, &[(24, 17)], FormatRule::Description, 0),
    (ONE, &[(25, 9), (38, 33)], FormatRule::Description, 1),
    (ONE, &[(29, 9)], FormatRule::Description, 5),
    (ONE, &[(30, 0)], FormatRule::Description, 6),
    (ONE, &[(38, 33)], FormatRule::Description, 14),
    (TWO, &[(5, 3), (7, 0)], FormatRule::Version, 0),
    (TWO, &[(4, 1), (7, 0)], FormatRule::Version, 0),
    (TWO, &[(7, 0), (24, 0)], FormatRule::Limits, 0),
    (TWO, &[(5, 1)], FormatRule::Length, 0),
    (TWO, &[(38, 33), (39, 0)], FormatRule::Description, 14),
    (TWO, &[(39, 0), (40, 4)], FormatRule::Description, 15),
    (TWO, &[(40, 4), (47, 2)], FormatRule::Description, 16),
    (TWO, &[(47, 2)], FormatRule::Description, 23),
    // All busy times are 1, for which version 1 is there.
    (TWO, &[(40, 1)], FormatRule::Description, 15),
    (TWO, &[(40, 1), (38, 0)], FormatRule::Description, 14),
];

/// Whether a rule is the first that a file breaks, and at which place.
fn breaks_first(alloc: Global, bytes: &[u8], rule: FormatRule, place: u32) -> bool {
    match read_parts(alloc, bytes) {
        Ok(_) => false,
        Err(fault) => fault == FormatFault::Broken(rule, place),
    }
}

fn is_faulty(alloc: Global, case: &Faulty) -> bool {
    let (version, changes, rule, place) = *case;
    match file(alloc, version, changes) {
        Ok(bytes) => breaks_first(alloc, &bytes, rule, place),
        Err(_) => false,
    }
}

#[test]
fn faulty_files_are_refused(rt: HostRuntime) {
    for (row, case) in FAULTY.iter().enumerate() {
        assert!(rt; is_faulty(rt.alloc(), case), "row {row}");
    }
}

/// A version and changes, and how many bytes of that file are kept, with the first broken rule. Its place is 0.
type Cut = (Version, &'static [(usize, u8)], usize, FormatRule);

const CUT: [Cut; 9] = [
    (ONE, &[(5, 9), (7, 0)], 0, FormatRule::Magic),
    (ONE, &[(5, 9), (7, 0)], 3, FormatRule::Magic),
    (ONE, &[(5, 9), (7, 0)], 5, FormatRule::Length),
    (ONE, &[(5, 9), (7, 0)], 6, FormatRule::Version),
    (ONE, &[(7, 0)], 38, FormatRule::Length),
    (ONE, &[(7, 0)], 39, FormatRule::Limits),
    (ONE, &[], 4140, FormatRule::Length),
    (TWO, &[(7, 0)], 47, FormatRule::Length),
    (TWO, &[(7, 0)], 48, FormatRule::Limits),
];

fn is_cut(alloc: Global, case: &Cut) -> bool {
    let (version, changes, length, rule) = *case;
    match file(alloc, version, changes) {
        Ok(bytes) => length <= bytes.len() && breaks_first(alloc, &bytes[..length], rule, 0),
        Err(_) => false,
    }
}

#[test]
fn cut_files_are_refused(rt: HostRuntime) {
    for (row, case) in CUT.iter().enumerate() {
        assert!(rt; is_cut(rt.alloc(), case), "row {row}");
    }
}

/// A header with the greatest numbers in the four fields that have limits: 256 pages, 131,072 blocks, 1,048,576 bytes of
/// memory, and as many initial bytes.
const GREATEST: [u8; 39] = [
    0x54, 0x4e, 0x4b, 0x49, 0x00, 0x01, 0x01, 0x00, 0x00, 0x02, 0x00, 0x00, 0x00, 0x00, 0x00, 0x00,
    0x00, 0x10, 0x00, 0x00, 0x00, 0x10, 0x00, 0x00, 0x02, 0x01, 0x01, 0x01, 0x01, 0x01, 0x01, 0x03,
    0x08, 0x02, 0x01, 0x01, 0x01, 0x01, 0x01,
];

/// The header as it is, and with each of the four numbers one above the greatest; the first broken rule and its place.
type Above = ((usize, u8), FormatRule, u32);

const ABOVE: [Above; 5] = [
    ((0, 0x54), FormatRule::Length, 0),
    ((7, 1), FormatRule::Limits, 0),
    ((11, 1), FormatRule::Limits, 1),
    ((19, 1), FormatRule::Limits, 2),
    ((23, 1), FormatRule::Limits, 3),
];

fn is_above(alloc: Global, case: &Above) -> bool {
    let (change_of_one, rule, place) = *case;
    let mut bytes = GREATEST;
    change(&mut bytes, &[change_of_one]);
    breaks_first(alloc, &bytes, rule, place)
}

#[test]
fn great_headers_are_refused(rt: HostRuntime) {
    for (row, case) in ABOVE.iter().enumerate() {
        assert!(rt; is_above(rt.alloc(), case), "row {row}");
    }
}
