// Operation words and what they say, and the times of blocks of words. The expected numbers were worked out from the tables
// of the format, apart from the code.
use super::places::guarded;
use list_encoding::fields::{operation, operation_fields};
use list_encoding::opcodes::{mnemonic_of, opcode};
use list_encoding::{Coded, decode, encode, is_head, pause, times};
use operation::{Action, AluKind, Dest, Guarded, Op, Size, Test};
use std::alloc::Global;

/// The head mark, the unit, the pause and the guard.
type Place = (bool, u8, u8, u8);

/// A word of each opcode that isn't a compare's, and the words of a block of `addi`, `outb` and `halt`.
const WORDS: [(u64, Place, Op); 46] = [
    (
        0x0000_843F_0000_0002,
        (false, 0, 0, 1),
        Op::Alu(AluKind::Add, 1, 31, 2),
    ),
    (
        0xBAC1_189E_0000_0009,
        (true, 7, 11, 6),
        Op::Alu(AluKind::Sub, 4, 30, 9),
    ),
    (
        0x7581_ACFD_0000_0010,
        (false, 14, 22, 11),
        Op::Alu(AluKind::And, 7, 29, 16),
    ),
    (
        0xA842_415C_0000_0017,
        (true, 5, 1, 16),
        Op::Alu(AluKind::Or, 10, 28, 23),
    ),
    (
        0x6302_D5BB_0000_001E,
        (false, 12, 12, 21),
        Op::Alu(AluKind::Xor, 13, 27, 30),
    ),
    (
        0x9DC3_6A1A_0000_0005,
        (true, 3, 23, 26),
        Op::Alu(AluKind::Shl, 16, 26, 5),
    ),
    (
        0x5083_FE79_0000_000C,
        (false, 10, 2, 31),
        Op::Alu(AluKind::Shr, 19, 25, 12),
    ),
    (
        0x8B44_12D8_0000_0013,
        (true, 1, 13, 4),
        Op::Alu(AluKind::Sar, 22, 24, 19),
    ),
    (
        0x4604_A737_0000_001A,
        (false, 8, 24, 9),
        Op::Alu(AluKind::Min, 25, 23, 26),
    ),
    (
        0xF8C5_3B96_0000_0001,
        (true, 15, 3, 14),
        Op::Alu(AluKind::Max, 28, 22, 1),
    ),
    (
        0x3388_CC5E_0000_0000,
        (false, 6, 14, 19),
        Op::AluImm(AluKind::Add, 2, 30, 0x0),
    ),
    (
        0xEE49_60FD_0000_0001,
        (true, 13, 25, 24),
        Op::AluImm(AluKind::Sub, 7, 29, 0x1),
    ),
    (
        0x2109_F59C_FFFF_FFFF,
        (false, 4, 4, 29),
        Op::AluImm(AluKind::And, 12, 28, 0xFFFF_FFFF),
    ),
    (
        0xDBCA_0A3B_8000_0000,
        (true, 11, 15, 2),
        Op::AluImm(AluKind::Or, 17, 27, 0x8000_0000),
    ),
    (
        0x168A_9EDA_7FFF_FFFF,
        (false, 2, 26, 7),
        Op::AluImm(AluKind::Xor, 22, 26, 0x7FFF_FFFF),
    ),
    (
        0xC94B_3379_0000_0020,
        (true, 9, 5, 12),
        Op::AluImm(AluKind::Shl, 27, 25, 0x20),
    ),
    (
        0x040B_C418_1234_5678,
        (false, 0, 16, 17),
        Op::AluImm(AluKind::Shr, 0, 24, 0x1234_5678),
    ),
    (
        0xBECC_58B7_0000_0005,
        (true, 7, 27, 22),
        Op::AluImm(AluKind::Sar, 5, 23, 0x5),
    ),
    (
        0x718C_ED56_FFFF_0000,
        (false, 14, 6, 27),
        Op::AluImm(AluKind::Min, 10, 22, 0xFFFF_0000),
    ),
    (
        0xAC4D_01F5_0000_0041,
        (true, 5, 17, 0),
        Op::AluImm(AluKind::Max, 15, 21, 0x41),
    ),
    (
        0x6710_94E0_0001_FFFF,
        (false, 12, 28, 5),
        Op::Pbr(7, 0x1_FFFF),
    ),
    (0x99D1_287F_0000_0000, (true, 3, 7, 10), Op::Mvb(3, 31)),
    (0x5491_BFC5_0000_0000, (false, 10, 18, 15), Op::Mvr(30, 5)),
    (0x8F54_5022_0000_0003, (true, 1, 29, 20), Op::Mul(1, 2, 3)),
    (
        0x4214_E7FE_0000_001D,
        (false, 8, 8, 25),
        Op::Div(31, 30, 29),
    ),
    (0xFCD5_7885_0000_0006, (true, 15, 19, 30), Op::Rem(4, 5, 6)),
    (
        0x3798_0C34_0000_1000,
        (false, 6, 30, 3),
        Op::Load(Size::Word, 1, 20, 0x1000),
    ),
    (
        0xEA58_A055_FFFF_FFFE,
        (true, 13, 9, 8),
        Op::Load(Size::Half, 2, 21, 0xFFFF_FFFE),
    ),
    (
        0x2519_3476_0000_0002,
        (false, 4, 20, 13),
        Op::Load(Size::HalfU, 3, 22, 0x2),
    ),
    (
        0xDFD9_C897_0000_0001,
        (true, 11, 31, 18),
        Op::Load(Size::Byte, 4, 23, 0x1),
    ),
    (
        0x129A_5CB8_0000_0000,
        (false, 2, 10, 23),
        Op::Load(Size::ByteU, 5, 24, 0x0),
    ),
    (
        0xCD5A_F12B_0000_0000,
        (true, 9, 21, 28),
        Op::Store(Size::Word, 9, 11, 0x0),
    ),
    (
        0x001B_054C_FFFF_FFFC,
        (false, 0, 0, 1),
        Op::Store(Size::Half, 10, 12, 0xFFFF_FFFC),
    ),
    (
        0xBADB_996D_8000_0001,
        (true, 7, 11, 6),
        Op::Store(Size::Byte, 11, 13, 0x8000_0001),
    ),
    (0x759C_2E20_0000_0000, (false, 14, 22, 11), Op::Inb(17)),
    (0xA85C_C012_0000_0000, (true, 5, 1, 16), Op::Outb(18)),
    (0x0428_4407_0000_0000, (false, 0, 16, 17), Op::Bru(7)),
    (0xBEE8_D922_0000_0000, (true, 7, 27, 22), Op::Brct(2, 9)),
    (0x71A9_6FE5_0000_0000, (false, 14, 6, 27), Op::Brcf(5, 31)),
    (0xAC69_80C1_0000_0000, (true, 5, 17, 0), Op::Brl(6, 1)),
    (0x672A_140D_0000_0000, (false, 12, 28, 5), Op::Halt(13)),
    (
        0x8008_8020_0000_0041,
        (true, 0, 0, 0),
        Op::AluImm(AluKind::Add, 1, 0, 65),
    ),
    (0x901C_8001_0000_0000, (true, 2, 0, 0), Op::Outb(1)),
    (0xA02A_0000_0000_0000, (true, 4, 0, 0), Op::Halt(0)),
    // The sum and the end again, with pauses.
    (
        0x8088_8020_0000_0041,
        (true, 0, 2, 0),
        Op::AluImm(AluKind::Add, 1, 0, 65),
    ),
    (0xA06A_0000_0000_0000, (true, 4, 1, 0), Op::Halt(0)),
];

/// A test, two destinations with their actions, the first operand, and the second one: a register or an immediate.
type Compare<N> = (Test, (u8, Action), (u8, Action), u8, N);

/// A word of each compare of two registers.
const COMPARES: [(u64, Place, Compare<u8>); 6] = [
    (
        0x6320_5402_0001_F820,
        (false, 12, 12, 21),
        (Test::Ceq, (0, Action::Un), (31, Action::Uc), 2, 1),
    ),
    (
        0x9DE0_E8A3_0007_E160,
        (true, 3, 23, 26),
        (Test::Cne, (5, Action::Uc), (28, Action::Oc), 3, 7),
    ),
    (
        0x50A1_7D44_000D_CAA0,
        (false, 10, 2, 31),
        (Test::Clt, (10, Action::On), (25, Action::Ac), 4, 13),
    ),
    (
        0x8B61_91E5_0013_B320,
        (true, 1, 13, 4),
        (Test::Cle, (15, Action::Oc), (22, Action::Uc), 5, 19),
    ),
    (
        0x4622_2686_0019_9C60,
        (false, 8, 24, 9),
        (Test::Cltu, (20, Action::An), (19, Action::Oc), 6, 25),
    ),
    (
        0xF8E2_BB27_001F_85A0,
        (true, 15, 3, 14),
        (Test::Cleu, (25, Action::Ac), (16, Action::Ac), 7, 31),
    ),
];

/// A word of each compare of a register and an immediate.
const IMMEDIATE_COMPARES: [(u64, Place, Compare<i16>); 6] = [
    (
        0x33A4_4FE3_0000_0540,
        (false, 6, 14, 19),
        (Test::Ceq, (31, Action::Ac), (0, Action::On), 3, 0),
    ),
    (
        0xEE64_E3C4_FFFF_3400,
        (true, 13, 25, 24),
        (Test::Cne, (30, Action::An), (6, Action::Un), 4, -1),
    ),
    (
        0x2125_77A5_8000_6380,
        (false, 4, 4, 29),
        (Test::Clt, (29, Action::Oc), (12, Action::An), 5, -32768),
    ),
    (
        0xDBE5_8B86_7FFF_9240,
        (true, 11, 15, 2),
        (Test::Cle, (28, Action::On), (18, Action::On), 6, 32767),
    ),
    (
        0x16A6_1F67_000A_C100,
        (false, 2, 26, 7),
        (Test::Cltu, (27, Action::Uc), (24, Action::Un), 7, 10),
    ),
    (
        0xC966_B348_FFFE_F080,
        (true, 9, 5, 12),
        (Test::Cleu, (26, Action::Un), (30, Action::An), 8, -2),
    ),
];

/// The reading of an operation at a place, where all numbers are in range.
fn coded(place: &Place, op: Op) -> Option<Coded> {
    let (head, unit, pause, guard) = *place;
    if unit >= 16 || pause >= 32 {
        return None;
    }
    Some(Coded {
        head,
        unit,
        pause,
        guarded: guarded(guard, op)?,
    })
}

/// Compares the fields of an operation with those of its word, and reads them again.
fn has_fields(word: u64, guarded: &Guarded) -> bool {
    let fields = operation_fields(&guarded.op);
    let number = opcode(fields.mnemonic);
    number as u64 == word >> 47 & 0x7F
        && fields.d as u64 == word >> 37 & 0x1F
        && fields.s as u64 == word >> 32 & 0x1F
        && fields.tail as u64 == word & 0xFFFF_FFFF
        && mnemonic_of(number) == Some(fields.mnemonic)
        && operation(fields) == Some(guarded.op)
}

/// Compares the word of an operation at a place, and what is read in that word.
fn is_word_of(word: u64, place: &Place, op: Op) -> bool {
    let Some(c) = coded(place, op) else {
        return false;
    };
    encode(&c) == word
        && decode(word) == Some(c)
        && (is_head(word), pause(word)) == (c.head, c.pause)
        && has_fields(word, &c.guarded)
}

/// The destination of an action.
fn dest((p, action): (u8, Action)) -> Dest {
    Dest { p, action }
}

fn is_word_of_compare(word: u64, place: &Place, compare: &Compare<u8>) -> bool {
    let (test, a, b, s, t) = *compare;
    is_word_of(word, place, Op::Cmp(test, dest(a), dest(b), s, t))
}

fn is_word_of_immediate_compare(word: u64, place: &Place, compare: &Compare<i16>) -> bool {
    let (test, a, b, s, imm) = *compare;
    is_word_of(word, place, Op::CmpImm(test, dest(a), dest(b), s, imm))
}

#[test]
fn words_and_their_readings(rt: HostRuntime) {
    for (row, (word, place, op)) in WORDS.iter().enumerate() {
        assert!(rt; is_word_of(*word, place, *op), "row {row}");
    }
    for (row, (word, place, compare)) in COMPARES.iter().enumerate() {
        assert!(rt; is_word_of_compare(*word, place, compare), "row {row}");
    }
    for (row, (word, place, compare)) in IMMEDIATE_COMPARES.iter().enumerate() {
        assert!(rt;
            is_word_of_immediate_compare(*word, place, compare),
            "row {row}"
        );
    }
}

/// Words without a reading, and why.
const UNREADABLE: [(u64, &str); 52] = [
    (0x0000_0000_0000_0000, "the word 0"),
    (0x0000_0000_0000_0000, "opcode 0"),
    (0x0005_8000_0000_0000, "opcode 11"),
    (0x0008_0000_0000_0000, "opcode 16"),
    (0x000D_8000_0000_0000, "opcode 27"),
    (0x0010_0000_0000_0000, "opcode 32"),
    (0x0012_0000_0000_0000, "opcode 36"),
    (0x0013_8000_0000_0000, "opcode 39"),
    (0x0015_8000_0000_0000, "opcode 43"),
    (0x0017_8000_0000_0000, "opcode 47"),
    (0x001D_0000_0000_0000, "opcode 58"),
    (0x001F_8000_0000_0000, "opcode 63"),
    (0x0023_0000_0000_0000, "opcode 70"),
    (0x0023_8000_0000_0000, "opcode 71"),
    (0x0027_0000_0000_0000, "opcode 78"),
    (0x0027_8000_0000_0000, "opcode 79"),
    (0x002A_8000_0000_0000, "opcode 85"),
    (0x003F_8000_0000_0000, "opcode 127"),
    (0x0000_8021_0000_0020, "tail register 32"),
    (0x0014_0021_8000_0000, "a bit above a register"),
    (0x0015_0021_0000_0020, "tail register 32 of rem"),
    (0x0010_8100_0000_0000, "pbr target 8"),
    (0x0010_8021_0000_0000, "pbr with s"),
    (0x0011_0101_0000_0000, "mvb target 8"),
    (0x0011_0021_0000_0001, "mvb with a tail"),
    (0x0011_8028_0000_0000, "mvr target 8"),
    (0x0011_8021_8000_0000, "mvr with a tail"),
    (0x001C_0021_0000_0000, "inb with s"),
    (0x001C_0020_0000_0001, "inb with a tail"),
    (0x001C_8021_0000_0000, "outb with d"),
    (0x001C_8001_0000_0001, "outb with a tail"),
    (0x0020_0021_0020_0800, "ceq with register 32"),
    (0x0020_0021_0001_0E00, "first action 6"),
    (0x0024_0021_0001_08C0, "second action 6"),
    (0x0020_0021_0001_0F00, "first action 7"),
    (0x0024_0021_0001_08E0, "second action 7"),
    (0x0022_8021_0001_0801, "cleu with a low bit"),
    (0x0026_8021_0001_0810, "cleui with bit 4"),
    (0x0028_0021_0000_0000, "bru with d"),
    (0x0028_0008_0000_0000, "bru target 8"),
    (0x0028_0001_0000_0001, "bru with a tail"),
    (0x0028_8028_0000_0000, "brct target 8"),
    (0x0028_8021_0000_0001, "brct with a tail"),
    (0x0029_03E8_0000_0000, "brcf target 8"),
    (0x0029_03E7_0001_0000, "brcf with a tail"),
    (0x0029_8101_0000_0000, "brl d 8"),
    (0x0029_8028_0000_0000, "brl s 8"),
    (0x0029_8021_0000_0001, "brl with a tail"),
    (0x002A_0021_0000_0000, "halt with d"),
    (0x002A_0001_0000_0001, "halt with a tail"),
    (0xFFC0_7FFF_FFFF_FFFF, "opcode 0 with every other bit"),
    (
        0x97DC_8C21_0000_0000,
        "outb with d, with mark, unit and pause",
    ),
];

#[test]
fn words_without_a_reading(rt: HostRuntime) {
    for (word, why) in &UNREADABLE {
        assert!(rt; decode(*word).is_none(), "{why}");
    }
}

/// Words, the issue cycle of each, and the block's end.
type Timed = (&'static [u64], &'static [u32], u32);

const TIMES: [Timed; 5] = [
    // Six MultiOps of one operation each.
    (
        &[
            0x8008_8020_0000_0041,
            0x9018_0020_0000_0000,
            0x8008_8041_0000_0000,
            0x901C_8002_0000_0000,
            0x901C_8001_0000_0000,
            0xA02A_0000_0000_0000,
        ],
        &[0, 1, 2, 3, 4, 5],
        6,
    ),
    // The same operations in four MultiOps.
    (
        &[
            0x8048_8020_0000_0041,
            0x1018_0020_0000_0000,
            0x8048_8041_0000_0000,
            0x901C_8002_0000_0000,
            0x202A_0000_0000_0000,
            0x905C_8001_0000_0000,
        ],
        &[0, 0, 2, 4, 4, 5],
        7,
    ),
    // A pause of 12 behind three operations.
    (
        &[
            0x8048_8020_0000_0007,
            0x931A_8020_0000_0000,
            0x0814_8041_0000_0000,
            0x101A_8020_0000_0004,
            0xA0AA_0000_0000_0000,
        ],
        &[0, 2, 2, 2, 15],
        18,
    ),
    // One operation with the longest pause.
    (&[0xA7EA_0000_0000_0000], &[0], 32),
    // No operation.
    (&[], &[], 0),
];

/// 512 MultiOps of one operation with the longest pause.
const LONGEST: [u64; 512] = [0xA7EA_0000_0000_0000; 512];

fn has_times(alloc: Global, case: &Timed) -> bool {
    let (words, at, end) = *case;
    if words.len() > 512 {
        return false;
    }
    match times(alloc, words) {
        Ok(found) => found.at.as_slice() == at && found.end == end,
        Err(_) => false,
    }
}

#[test]
fn times_of_blocks(rt: HostRuntime) {
    for (row, case) in TIMES.iter().enumerate() {
        assert!(rt; has_times(rt.alloc(), case), "row {row}");
    }
    let found = times(rt.alloc(), &LONGEST).expect(&rt, "there is memory");
    assert!(rt; found.at.len() == 512 && found.end == 16384);
    assert!(rt; found.at.first() == Some(&0) && found.at.last() == Some(&16352));
}
