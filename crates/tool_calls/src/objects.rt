// Object files: one object of two blocks, in both versions, and files with one or two faults. The bytes and the expected
// answers were made by a program of their own, from the tables of the format.
ghost use Rattle.object_format.specs.Module.{IsModule};
ghost use Rattle.object_format.specs.Objects.{module_of};

use machine_desc::Mdes;
use object_format::{ObjBlock, Object, ObjectFault, read_object, write_object};
use std::alloc::{AllocError, Global};

/// The file of this text, in version 1:
///
///     .desc 2 1 1 1 1 1 1 3 8 2 1 1 1 1 1
///     .pages 2
///     .block main
///     pbr b1, @next
///     addi r2, r0, @table
///     ;;
///     bru b1
///     ;;
///     .end
///     .block next @ 511
///     halt r0
///     ;;
///     .end
///     .byte 7 9
///     .data table
///     .space 6
const FILE: [u8; 147] = [
    0x54, 0x4e, 0x4b, 0x4f, 0x02, 0x01, 0x01, 0x01, 0x01, 0x01, 0x01, 0x03, 0x08, 0x02, 0x01, 0x01,
    0x01, 0x01, 0x01, 0x00, 0x02, 0x00, 0x00, 0x00, 0x03, 0x00, 0x00, 0x00, 0x02, 0x00, 0x00, 0x00,
    0x04, 0x00, 0x00, 0x00, 0x02, 0x00, 0x00, 0x00, 0x01, 0x00, 0x00, 0x00, 0x08, 0x00, 0x00, 0x00,
    0x02, 0x00, 0x00, 0x00, 0x10, 0x04, 0x6d, 0x61, 0x69, 0x6e, 0x04, 0x6e, 0x65, 0x78, 0x74, 0x05,
    0x74, 0x61, 0x62, 0x6c, 0x65, 0x00, 0x00, 0x00, 0x00, 0xff, 0xff, 0xff, 0xff, 0x00, 0x03, 0x00,
    0x00, 0x00, 0x01, 0x00, 0x00, 0x01, 0xff, 0x00, 0x01, 0x80, 0x10, 0x80, 0x20, 0x00, 0x00, 0x00,
    0x00, 0x00, 0x08, 0x80, 0x40, 0x00, 0x00, 0x00, 0x00, 0xa0, 0x28, 0x00, 0x01, 0x00, 0x00, 0x00,
    0x00, 0xa0, 0x2a, 0x00, 0x00, 0x00, 0x00, 0x00, 0x00, 0x00, 0x00, 0x00, 0x00, 0x00, 0x00, 0x00,
    0x01, 0x00, 0x00, 0x00, 0x01, 0x00, 0x00, 0x00, 0x02, 0x00, 0x00, 0x00, 0x02, 0x00, 0x00, 0x00,
    0x02, 0x07, 0x09,
];

/// Whether a file has busy times: version 2.
type HasBusyTimes = bool;

const ONE: HasBusyTimes = false;

const TWO: HasBusyTimes = true;

/// The busy times of the file of version 2: a product keeps its unit for three cycles.
const BUSY_TIMES: [u8; 9] = [1, 3, 1, 1, 1, 1, 1, 1, 1];

/// A version; the length to which its file is cut or, by zeros, drawn out; and bytes that stand in it from offsets on.
type Changed = (HasBusyTimes, usize, &'static [(usize, &'static [u8])]);

/// The file of a version.
fn file(alloc: Global, version: HasBusyTimes) -> Result<Vec<u8>, AllocError> {
    let mut bytes = Vec::new(alloc);
    if version {
        bytes.extend_from_slice(b"TNKP")?;
        bytes.extend_from_slice(&FILE[4..19])?;
        bytes.extend_from_slice(&BUSY_TIMES)?;
    } else {
        bytes.extend_from_slice(&FILE[..19])?;
    }
    bytes.extend_from_slice(&FILE[19..])?;
    Ok(bytes)
}

/// Puts bytes in place of those that stand from an offset on.
fn change(bytes: &mut [u8], offset: usize, those: &[u8]) {
    for (byte, new) in bytes.iter_mut().skip(offset).zip(those) {
        *byte = *new;
    }
}

fn changed(alloc: Global, case: &Changed) -> Result<Vec<u8>, AllocError> {
    let (version, length, changes) = *case;
    let mut bytes = file(alloc, version)?;
    for (offset, those) in changes {
        change(&mut bytes, *offset, those);
    }
    bytes.resize(length, 0)?;
    Ok(bytes)
}

/// What a file is, how it is made, and the first broken rule, if one is.
type Case = (&'static str, Changed, Option<ObjectFault>);

/// Files and their first broken rule. In version 1 the names begin at 53, 58 and 63, the blocks at 69 and 79, the words at 89,
/// the references at 121 and 129, the label at 137 and the initial bytes at 145; in version 2 each nine bytes behind that.
const FIRST: [Case; 12] = [
    ("the file", (ONE, 147, &[]), None),
    ("the file with busy times", (TWO, 156, &[]), None),
    // Beginning and length.
    ("no bytes", (ONE, 0, &[]), Some(ObjectFault::Magic)),
    ("three bytes", (ONE, 3, &[]), Some(ObjectFault::Magic)),
    (
        "another first letter",
        (ONE, 147, &[(0, &[0x55])]),
        Some(ObjectFault::Magic),
    ),
    (
        "another last letter",
        (ONE, 147, &[(3, &[0x49])]),
        Some(ObjectFault::Magic),
    ),
    (
        "another last letter, and a length that is wrong",
        (ONE, 60, &[(3, &[0x51])]),
        Some(ObjectFault::Magic),
    ),
    (
        "the four letters alone",
        (ONE, 4, &[]),
        Some(ObjectFault::Length),
    ),
    (
        "a byte less than the numbers",
        (ONE, 52, &[]),
        Some(ObjectFault::Length),
    ),
    (
        "the numbers alone",
        (ONE, 53, &[]),
        Some(ObjectFault::Length),
    ),
    ("a byte less", (ONE, 146, &[]), Some(ObjectFault::Length)),
    ("a byte more", (ONE, 148, &[]), Some(ObjectFault::Length)),
];

/// The second part of them.
const SECOND: [Case; 12] = [
    (
        "the letters of the other version",
        (ONE, 147, &[(3, &[0x50])]),
        Some(ObjectFault::Length),
    ),
    (
        "the letters of the first version",
        (TWO, 156, &[(3, &[0x4f])]),
        Some(ObjectFault::Length),
    ),
    (
        "with busy times a byte less than the numbers",
        (TWO, 61, &[]),
        Some(ObjectFault::Length),
    ),
    (
        "with busy times a byte less",
        (TWO, 155, &[]),
        Some(ObjectFault::Length),
    ),
    (
        "with busy times a byte more",
        (TWO, 157, &[]),
        Some(ObjectFault::Length),
    ),
    (
        "one more name byte",
        (ONE, 147, &[(49, &[0, 0, 0, 0x11])]),
        Some(ObjectFault::Length),
    ),
    (
        "one block less",
        (ONE, 147, &[(25, &[0, 0, 0, 1])]),
        Some(ObjectFault::Length),
    ),
    (
        "as many words as a number can say",
        (ONE, 147, &[(29, &[0xff, 0xff, 0xff, 0xff])]),
        Some(ObjectFault::Length),
    ),
    (
        "all numbers as large as can be",
        (
            ONE,
            147,
            &[(
                21,
                &[
                    0xff, 0xff, 0xff, 0xff, 0xff, 0xff, 0xff, 0xff, 0xff, 0xff, 0xff, 0xff, 0xff,
                    0xff, 0xff, 0xff, 0xff, 0xff, 0xff, 0xff, 0xff, 0xff, 0xff, 0xff, 0xff, 0xff,
                    0xff, 0xff, 0xff, 0xff, 0xff, 0xff,
                ],
            )],
        ),
        Some(ObjectFault::Length),
    ),
    (
        "words whose bytes come to 0 at 2^32",
        (ONE, 147, &[(29, &[0x20, 0, 0, 4])]),
        Some(ObjectFault::Length),
    ),
    (
        "a wrong length, and a width of 0",
        (ONE, 148, &[(4, &[0])]),
        Some(ObjectFault::Length),
    ),
    // The description.
    (
        "width 0",
        (ONE, 147, &[(4, &[0])]),
        Some(ObjectFault::Field(4)),
    ),
];

/// The third part of them.
const THIRD: [Case; 12] = [
    (
        "width 17",
        (ONE, 147, &[(4, &[0x11])]),
        Some(ObjectFault::Field(4)),
    ),
    ("width 16", (ONE, 147, &[(4, &[0x10])]), None),
    ("no integer unit", (ONE, 147, &[(5, &[0])]), None),
    (
        "nine integer units",
        (ONE, 147, &[(5, &[9])]),
        Some(ObjectFault::Field(5)),
    ),
    (
        "nine branch units",
        (ONE, 147, &[(9, &[9])]),
        Some(ObjectFault::Field(9)),
    ),
    (
        "a latency of 0",
        (ONE, 147, &[(10, &[0])]),
        Some(ObjectFault::Field(10)),
    ),
    (
        "a latency of 33",
        (ONE, 147, &[(18, &[0x21])]),
        Some(ObjectFault::Field(18)),
    ),
    ("a latency of 32", (ONE, 147, &[(18, &[0x20])]), None),
    (
        "a busy time of 0",
        (TWO, 156, &[(19, &[0])]),
        Some(ObjectFault::Field(19)),
    ),
    (
        "a busy time above its latency",
        (TWO, 156, &[(20, &[4])]),
        Some(ObjectFault::Field(20)),
    ),
    (
        "the last busy time above its latency",
        (TWO, 156, &[(27, &[2])]),
        Some(ObjectFault::Field(27)),
    ),
    (
        "all busy times 1",
        (TWO, 156, &[(20, &[1])]),
        Some(ObjectFault::Field(19)),
    ),
];

/// The fourth part of them.
const FOURTH: [Case; 12] = [
    (
        "all busy times 1, and a width of 0",
        (TWO, 156, &[(20, &[1]), (4, &[0])]),
        Some(ObjectFault::Field(4)),
    ),
    (
        "all busy times 1, and too many pages",
        (TWO, 156, &[(20, &[1]), (28, &[1, 1])]),
        Some(ObjectFault::Field(19)),
    ),
    (
        "a latency below its busy time",
        (TWO, 156, &[(11, &[2])]),
        Some(ObjectFault::Field(20)),
    ),
    // The numbers.
    ("256 pages", (ONE, 147, &[(19, &[1, 0])]), None),
    (
        "257 pages",
        (ONE, 147, &[(19, &[1, 1])]),
        Some(ObjectFault::Field(19)),
    ),
    (
        "257 pages, with busy times",
        (TWO, 156, &[(28, &[1, 1])]),
        Some(ObjectFault::Field(28)),
    ),
    ("no pages are asked for", (ONE, 147, &[(19, &[0, 0])]), None),
    (
        "262,145 names",
        (ONE, 147, &[(21, &[0, 4, 0, 1])]),
        Some(ObjectFault::Field(21)),
    ),
    (
        "262,144 names, which the name bytes have not",
        (ONE, 147, &[(21, &[0, 4, 0, 0])]),
        Some(ObjectFault::Field(49)),
    ),
    (
        "one name less",
        (ONE, 147, &[(21, &[0, 0, 0, 2])]),
        Some(ObjectFault::Field(49)),
    ),
    (
        "one name more",
        (ONE, 147, &[(21, &[0, 0, 0, 4])]),
        Some(ObjectFault::Field(49)),
    ),
    (
        "a count less",
        (ONE, 147, &[(77, &[0, 2])]),
        Some(ObjectFault::Field(29)),
    ),
];

/// The fifth part of them.
const FIFTH: [Case; 12] = [
    (
        "a count less, with busy times",
        (TWO, 156, &[(86, &[0, 2])]),
        Some(ObjectFault::Field(38)),
    ),
    (
        "a count of 0, and another more",
        (ONE, 147, &[(77, &[0, 4]), (87, &[0, 0])]),
        Some(ObjectFault::Field(87)),
    ),
    (
        "data of 1,048,576 bytes",
        (ONE, 147, &[(41, &[0, 0x10, 0, 0])]),
        None,
    ),
    (
        "data of 1,048,577 bytes",
        (ONE, 147, &[(41, &[0, 0x10, 0, 1])]),
        Some(ObjectFault::Field(41)),
    ),
    (
        "data as large as the initial bytes",
        (ONE, 147, &[(41, &[0, 0, 0, 2])]),
        None,
    ),
    (
        "data smaller than the initial bytes",
        (ONE, 147, &[(41, &[0, 0, 0, 1])]),
        Some(ObjectFault::Field(45)),
    ),
    (
        "data smaller than the initial bytes, with busy times",
        (TWO, 156, &[(50, &[0, 0, 0, 1])]),
        Some(ObjectFault::Field(54)),
    ),
    // Names.
    (
        "a name of no bytes, whose bytes are taken for names",
        (ONE, 147, &[(53, &[0])]),
        Some(ObjectFault::Field(49)),
    ),
    (
        "a name that goes into the next",
        (ONE, 147, &[(53, &[9])]),
        Some(ObjectFault::Field(49)),
    ),
    (
        "the last name ends late",
        (ONE, 147, &[(63, &[6])]),
        Some(ObjectFault::Field(49)),
    ),
    (
        "the last name ends early",
        (ONE, 147, &[(63, &[4])]),
        Some(ObjectFault::Field(49)),
    ),
    (
        "the same name again",
        (ONE, 147, &[(59, b"main")]),
        Some(ObjectFault::Field(58)),
    ),
];

/// The sixth part of them.
const SIXTH: [Case; 12] = [
    (
        "the same name again, with busy times",
        (TWO, 156, &[(68, b"main")]),
        Some(ObjectFault::Field(67)),
    ),
    (
        "a name that differs in its last letter",
        (ONE, 147, &[(59, b"maim")]),
        None,
    ),
    (
        "letters that no text could name",
        (ONE, 147, &[(54, &[0, 0xff, 0x20])]),
        None,
    ),
    (
        "a first name of 0 bytes, and the others to the end",
        (ONE, 147, &[(53, &[0, 4, 0x78, 0x78, 0x78, 0x78, 9])]),
        Some(ObjectFault::Field(53)),
    ),
    (
        "two names of 0 bytes",
        (ONE, 147, &[(53, &[0, 0, 0x0d])]),
        Some(ObjectFault::Field(53)),
    ),
    // Blocks.
    (
        "a block of a name that is not there",
        (ONE, 147, &[(69, &[0, 0, 0, 3])]),
        Some(ObjectFault::Field(69)),
    ),
    (
        "the second block of a name that is not there",
        (ONE, 147, &[(79, &[0xff, 0xff, 0xff, 0xff])]),
        Some(ObjectFault::Field(79)),
    ),
    (
        "two blocks of one name",
        (ONE, 147, &[(79, &[0, 0, 0, 0])]),
        None,
    ),
    (
        "an address of 131,071",
        (ONE, 147, &[(83, &[0, 1, 0xff, 0xff])]),
        None,
    ),
    (
        "an address of 131,072",
        (ONE, 147, &[(83, &[0, 2, 0, 0])]),
        Some(ObjectFault::Field(83)),
    ),
    (
        "an address one below none",
        (ONE, 147, &[(83, &[0xff, 0xff, 0xff, 0xfe])]),
        Some(ObjectFault::Field(83)),
    ),
    ("an address of 0", (ONE, 147, &[(73, &[0, 0, 0, 0])]), None),
];

/// The seventh part of them.
const SEVENTH: [Case; 12] = [
    (
        "a block that is not within a page",
        (ONE, 147, &[(73, &[0, 0, 1, 0xff])]),
        None,
    ),
    (
        "a block of a name and an address that are not there",
        (ONE, 147, &[(79, &[0, 0, 0, 3, 0, 2, 0, 0])]),
        Some(ObjectFault::Field(79)),
    ),
    // Words, and what refers to them.
    (
        "a word that says nothing",
        (
            ONE,
            147,
            &[(113, &[0xff, 0xff, 0xff, 0xff, 0xff, 0xff, 0xff, 0xff])],
        ),
        None,
    ),
    (
        "a word with references has a tail",
        (ONE, 147, &[(96, &[1])]),
        Some(ObjectFault::Field(121)),
    ),
    (
        "the second word with references has a tail",
        (ONE, 147, &[(101, &[0x80])]),
        Some(ObjectFault::Field(129)),
    ),
    (
        "a word with references has other bits",
        (ONE, 147, &[(89, &[0xff, 0xff, 0xff, 0xff])]),
        None,
    ),
    (
        "a reference twice",
        (ONE, 147, &[(129, &[0, 0, 0, 0])]),
        Some(ObjectFault::Field(129)),
    ),
    (
        "references that fall",
        (ONE, 147, &[(121, &[0, 0, 0, 1]), (129, &[0, 0, 0, 0])]),
        Some(ObjectFault::Field(129)),
    ),
    (
        "a reference in the last word",
        (ONE, 147, &[(129, &[0, 0, 0, 3])]),
        None,
    ),
    (
        "a reference behind the words",
        (ONE, 147, &[(129, &[0, 0, 0, 4])]),
        Some(ObjectFault::Field(129)),
    ),
    (
        "a reference behind the words, of the greatest number",
        (ONE, 147, &[(129, &[0xff, 0xff, 0xff, 0xff])]),
        Some(ObjectFault::Field(129)),
    ),
    (
        "a reference to a name that is not there",
        (ONE, 147, &[(125, &[0, 0, 0, 3])]),
        Some(ObjectFault::Field(125)),
    ),
];

/// The eighth part of them.
const EIGHTH: [Case; 11] = [
    (
        "the last reference to a name that is not there",
        (TWO, 156, &[(142, &[0, 0, 0, 3])]),
        Some(ObjectFault::Field(142)),
    ),
    // Labels and initial bytes.
    (
        "a label of a name that is not there",
        (ONE, 147, &[(137, &[0, 0, 0, 3])]),
        Some(ObjectFault::Field(137)),
    ),
    (
        "a label at the end of the data",
        (ONE, 147, &[(141, &[0, 0, 0, 8])]),
        None,
    ),
    (
        "a label behind the data",
        (ONE, 147, &[(141, &[0, 0, 0, 9])]),
        Some(ObjectFault::Field(141)),
    ),
    (
        "a label behind the data, with busy times",
        (TWO, 156, &[(150, &[0, 0, 0, 9])]),
        Some(ObjectFault::Field(150)),
    ),
    (
        "a label of a block's name",
        (ONE, 147, &[(137, &[0, 0, 0, 0])]),
        None,
    ),
    (
        "other initial bytes",
        (ONE, 147, &[(145, &[0xff, 0xff])]),
        None,
    ),
    // Two broken rules.
    (
        "a count that is missing, and a name that is not there",
        (ONE, 147, &[(77, &[0, 2]), (69, &[0, 0, 0, 3])]),
        Some(ObjectFault::Field(29)),
    ),
    (
        "the same name again, and a block of a name that is not there",
        (ONE, 147, &[(59, b"main"), (69, &[0, 0, 0, 3])]),
        Some(ObjectFault::Field(58)),
    ),
    (
        "a name that is not there in a label and in a block",
        (ONE, 147, &[(137, &[0, 0, 0, 3]), (79, &[0, 0, 0, 3])]),
        Some(ObjectFault::Field(79)),
    ),
    (
        "too many pages, and a latency of 0",
        (ONE, 147, &[(19, &[0xff, 0xff]), (18, &[0])]),
        Some(ObjectFault::Field(18)),
    ),
];

/// What keeps all rules is written as it was read.
fn comes_back(alloc: Global, bytes: &[u8], object: &Object) -> bool
    requires { IsModule (module_of object.now) }
{
    match write_object(alloc, object) {
        Ok(written) => written.as_slice() == bytes,
        Err(_) => false,
    }
}

fn is_answered(alloc: Global, case: &Changed, want: Option<ObjectFault>) -> bool {
    let Ok(bytes) = changed(alloc, case) else {
        return false;
    };
    match read_object(alloc, &bytes) {
        Ok(object) => want.is_none() && comes_back(alloc, &bytes, &object),
        Err(fault) => want == Some(fault),
    }
}

#[test]
fn the_first_files_are_answered(rt: HostRuntime) {
    for (name, case, want) in &FIRST {
        assert!(rt; is_answered(rt.alloc(), case, *want), "{name}");
    }
}

#[test]
fn the_second_files_are_answered(rt: HostRuntime) {
    for (name, case, want) in &SECOND {
        assert!(rt; is_answered(rt.alloc(), case, *want), "{name}");
    }
}

#[test]
fn the_third_files_are_answered(rt: HostRuntime) {
    for (name, case, want) in &THIRD {
        assert!(rt; is_answered(rt.alloc(), case, *want), "{name}");
    }
}

#[test]
fn the_fourth_files_are_answered(rt: HostRuntime) {
    for (name, case, want) in &FOURTH {
        assert!(rt; is_answered(rt.alloc(), case, *want), "{name}");
    }
}

#[test]
fn the_fifth_files_are_answered(rt: HostRuntime) {
    for (name, case, want) in &FIFTH {
        assert!(rt; is_answered(rt.alloc(), case, *want), "{name}");
    }
}

#[test]
fn the_sixth_files_are_answered(rt: HostRuntime) {
    for (name, case, want) in &SIXTH {
        assert!(rt; is_answered(rt.alloc(), case, *want), "{name}");
    }
}

#[test]
fn the_seventh_files_are_answered(rt: HostRuntime) {
    for (name, case, want) in &SEVENTH {
        assert!(rt; is_answered(rt.alloc(), case, *want), "{name}");
    }
}

#[test]
fn the_eighth_files_are_answered(rt: HostRuntime) {
    for (name, case, want) in &EIGHTH {
        assert!(rt; is_answered(rt.alloc(), case, *want), "{name}");
    }
}

/// The words of the object.
const WORDS: [u64; 4] = [
    0x8010_8020_0000_0000,
    0x0008_8040_0000_0000,
    0xa028_0001_0000_0000,
    0xa02a_0000_0000_0000,
];

fn has_blocks(object: &Object) -> bool {
    object.blocks.as_slice()
        == [
            ObjBlock {
                name: 0,
                at: None,
                count: 3,
            },
            ObjBlock {
                name: 1,
                at: Some(511),
                count: 1,
            },
        ]
        .as_slice()
}

fn has_names(object: &Object) -> bool {
    let names = &object.names;
    names.len() == 3
        && names[0].bytes() == b"main".as_slice()
        && names[1].bytes() == b"next".as_slice()
        && names[2].bytes() == b"table".as_slice()
}

fn has_description(object: &Object, version: HasBusyTimes) -> bool {
    let busy_times = if version { BUSY_TIMES } else { [1; 9] };
    Some(object.desc) == Mdes::with_busy(2, [1; 5], [1, 3, 8, 2, 1, 1, 1, 1, 1], busy_times)
}

/// The object has what the text says.
fn is_the_text(object: &Object) -> bool {
    (object.pages, object.size) == (2, 8)
        && has_names(object)
        && has_blocks(object)
        && object.words.as_slice() == WORDS.as_slice()
        && object.refs.as_slice() == [(0, 1), (1, 2)].as_slice()
        && object.labels.as_slice() == [(2, 2)].as_slice()
        && object.init.as_slice() == [7, 9].as_slice()
}

fn is_read(alloc: Global, version: HasBusyTimes) -> bool {
    let Ok(bytes) = file(alloc, version) else {
        return false;
    };
    match read_object(alloc, &bytes) {
        Ok(object) => is_the_text(&object) && has_description(&object, version),
        Err(_) => false,
    }
}

#[test]
fn objects_are_read(rt: HostRuntime) {
    assert!(rt; is_read(rt.alloc(), ONE));
    assert!(rt; is_read(rt.alloc(), TWO));
}
