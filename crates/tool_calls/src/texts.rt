// Tokens of texts: their kinds, places and lines, and the first faults of texts. The expected answers were made by a program of
// its own, from the rules of the assembly text.
use std::alloc::{AllocError, Global};
use tnk_text::{Kind, TextFault, Token, tokens};

/// What a token is, where it begins and ends, and its line.
type Wanted = (Kind, u32, u32, u32);

/// A text, and its tokens.
const TOKENS: [(&[u8], &[Wanted]); 26] = [
    // Nothing, and what is skipped.
    (b"", &[]),
    (b" \t\r", &[]),
    (b"# $ \xFF\0", &[]),
    (
        b"\n\n# x\n",
        &[
            (Kind::Newline, 0, 1, 1),
            (Kind::Newline, 1, 2, 2),
            (Kind::Newline, 5, 6, 3),
        ],
    ),
    // Words and marks.
    (
        b"a _ . Z9._",
        &[
            (Kind::Word, 0, 1, 1),
            (Kind::Word, 2, 3, 1),
            (Kind::Word, 4, 5, 1),
            (Kind::Word, 6, 10, 1),
        ],
    ),
    (
        b".block main@5",
        &[
            (Kind::Word, 0, 6, 1),
            (Kind::Word, 7, 11, 1),
            (Kind::Mark(b'@'), 11, 12, 1),
            (Kind::Number(5), 12, 13, 1),
        ],
    ),
    (
        b"add r1,r2",
        &[
            (Kind::Word, 0, 3, 1),
            (Kind::Word, 4, 6, 1),
            (Kind::Mark(b','), 6, 7, 1),
            (Kind::Word, 7, 9, 1),
        ],
    ),
    (
        b"(p1)x",
        &[
            (Kind::Mark(b'('), 0, 1, 1),
            (Kind::Word, 1, 3, 1),
            (Kind::Mark(b')'), 3, 4, 1),
            (Kind::Word, 4, 5, 1),
        ],
    ),
    (
        b"),(@",
        &[
            (Kind::Mark(b')'), 0, 1, 1),
            (Kind::Mark(b','), 1, 2, 1),
            (Kind::Mark(b'('), 2, 3, 1),
            (Kind::Mark(b'@'), 3, 4, 1),
        ],
    ),
    // Pairs.
    (b";;", &[(Kind::Pair, 0, 2, 1)]),
    (b";;;;", &[(Kind::Pair, 0, 2, 1), (Kind::Pair, 2, 4, 1)]),
    (b";; ;;#;", &[(Kind::Pair, 0, 2, 1), (Kind::Pair, 3, 5, 1)]),
    // Numbers.
    (b"0", &[(Kind::Number(0), 0, 1, 1)]),
    (b"00012", &[(Kind::Number(12), 0, 5, 1)]),
    (b"-0", &[(Kind::Number(0), 0, 2, 1)]),
    (b"-1", &[(Kind::Number(-1), 0, 2, 1)]),
    (b"4294967295", &[(Kind::Number(4294967295), 0, 10, 1)]),
    (b"-2147483648", &[(Kind::Number(-2147483648), 0, 11, 1)]),
    (b"0xFFFFffff", &[(Kind::Number(4294967295), 0, 10, 1)]),
    (b"-0x80000000", &[(Kind::Number(-2147483648), 0, 11, 1)]),
    (b"0x00000000000000000a", &[(Kind::Number(10), 0, 20, 1)]),
    (
        b"1,2",
        &[
            (Kind::Number(1), 0, 1, 1),
            (Kind::Mark(b','), 1, 2, 1),
            (Kind::Number(2), 2, 3, 1),
        ],
    ),
    (
        b"3-4",
        &[(Kind::Number(3), 0, 1, 1), (Kind::Number(-4), 1, 3, 1)],
    ),
    (
        b"5@6;;7#8",
        &[
            (Kind::Number(5), 0, 1, 1),
            (Kind::Mark(b'@'), 1, 2, 1),
            (Kind::Number(6), 2, 3, 1),
            (Kind::Pair, 3, 5, 1),
            (Kind::Number(7), 5, 6, 1),
        ],
    ),
    // Lines.
    (
        b"a\r\nb\n\nc",
        &[
            (Kind::Word, 0, 1, 1),
            (Kind::Newline, 2, 3, 1),
            (Kind::Word, 3, 4, 2),
            (Kind::Newline, 4, 5, 2),
            (Kind::Newline, 5, 6, 3),
            (Kind::Word, 6, 7, 4),
        ],
    ),
    (
        b"(p1) addi r1, -0x2 # a;$\n.word 7\r;;\n@x_.9",
        &[
            (Kind::Mark(b'('), 0, 1, 1),
            (Kind::Word, 1, 3, 1),
            (Kind::Mark(b')'), 3, 4, 1),
            (Kind::Word, 5, 9, 1),
            (Kind::Word, 10, 12, 1),
            (Kind::Mark(b','), 12, 13, 1),
            (Kind::Number(-2), 14, 18, 1),
            (Kind::Newline, 24, 25, 1),
            (Kind::Word, 25, 30, 2),
            (Kind::Number(7), 31, 32, 2),
            (Kind::Pair, 33, 35, 2),
            (Kind::Newline, 35, 36, 2),
            (Kind::Mark(b'@'), 36, 37, 3),
            (Kind::Word, 37, 41, 3),
        ],
    ),
];

/// The longest text that is taken apart, in bytes.
const LONGEST: usize = 16_777_216;

fn is_token(token: &Token, wanted: &Wanted) -> bool {
    (token.kind, token.start, token.end, token.line) == *wanted
}

fn are_tokens(alloc: Global, text: &[u8], wanted: &[Wanted]) -> bool {
    if text.len() > LONGEST {
        return false;
    }
    match tokens(alloc, text) {
        Ok(found) => {
            found.len() == wanted.len() && found.iter().zip(wanted).all(|(t, w)| is_token(t, w))
        }
        Err(_) => false,
    }
}

#[test]
fn texts_have_tokens(rt: HostRuntime) {
    for (row, (text, wanted)) in TOKENS.iter().enumerate() {
        assert!(rt; are_tokens(rt.alloc(), text, wanted), "row {row}");
    }
}

/// A text, and its first fault.
const FAULTS: [(&[u8], TextFault); 66] = [
    // Bytes that begin no token.
    (b"$", TextFault::BadByte(0, 1)),
    (b"add\n;", TextFault::BadByte(4, 2)),
    (b"; ;", TextFault::BadByte(0, 1)),
    (b";;;", TextFault::BadByte(2, 1)),
    (b"- 1", TextFault::BadByte(0, 1)),
    (b"--1", TextFault::BadByte(0, 1)),
    (b"-", TextFault::BadByte(0, 1)),
    (b"-a", TextFault::BadByte(0, 1)),
    (b"+1", TextFault::BadByte(0, 1)),
    (b"\"a\"", TextFault::BadByte(0, 1)),
    (b"a:", TextFault::BadByte(1, 1)),
    (b"a-b", TextFault::BadByte(1, 1)),
    (b"\x0B", TextFault::BadByte(0, 1)),
    (b"\0", TextFault::BadByte(0, 1)),
    (b"\x7F", TextFault::BadByte(0, 1)),
    (b"\xC3\xA4", TextFault::BadByte(0, 1)),
    (b"# \n\xFF", TextFault::BadByte(3, 2)),
    (b"a/b", TextFault::BadByte(1, 1)),
    (b"[", TextFault::BadByte(0, 1)),
    (b"`", TextFault::BadByte(0, 1)),
    (b"{", TextFault::BadByte(0, 1)),
    (b"?", TextFault::BadByte(0, 1)),
    (b"*", TextFault::BadByte(0, 1)),
    (b"=", TextFault::BadByte(0, 1)),
    (b"!", TextFault::BadByte(0, 1)),
    (b"'", TextFault::BadByte(0, 1)),
    (b"~", TextFault::BadByte(0, 1)),
    (b"^", TextFault::BadByte(0, 1)),
    (b"&", TextFault::BadByte(0, 1)),
    (b"|", TextFault::BadByte(0, 1)),
    (b"<", TextFault::BadByte(0, 1)),
    (b">", TextFault::BadByte(0, 1)),
    (b"%", TextFault::BadByte(0, 1)),
    (b"\\", TextFault::BadByte(0, 1)),
    // Bytes that go on with no number.
    (b"12a4", TextFault::BadByte(2, 1)),
    (b"1.", TextFault::BadByte(1, 1)),
    (b"1_000", TextFault::BadByte(1, 1)),
    (b"0x", TextFault::BadByte(2, 1)),
    (b"0x\n", TextFault::BadByte(2, 1)),
    (b"0x ", TextFault::BadByte(2, 1)),
    (b"-0x", TextFault::BadByte(3, 1)),
    (b"0xg", TextFault::BadByte(2, 1)),
    (b"-0xg", TextFault::BadByte(3, 1)),
    (b"0x1g", TextFault::BadByte(3, 1)),
    (b"0x.", TextFault::BadByte(2, 1)),
    (b"0X1", TextFault::BadByte(1, 1)),
    (b"00x1", TextFault::BadByte(2, 1)),
    (b"0b1", TextFault::BadByte(1, 1)),
    (b"1e9", TextFault::BadByte(1, 1)),
    (b"99999999999z", TextFault::BadByte(11, 1)),
    (b"0x100000000g", TextFault::BadByte(11, 1)),
    (b"\n\n 7x", TextFault::BadByte(4, 3)),
    // Numbers out of range.
    (b" 4294967296", TextFault::NumberRange(1, 1)),
    (b"-2147483649", TextFault::NumberRange(0, 1)),
    (b"0x100000000", TextFault::NumberRange(0, 1)),
    (b"-0x80000001", TextFault::NumberRange(0, 1)),
    (b"18446744073709551616", TextFault::NumberRange(0, 1)),
    (b"18446744073709551617", TextFault::NumberRange(0, 1)),
    (b"-9223372036854775809", TextFault::NumberRange(0, 1)),
    (b"0xffffffffffffffff1", TextFault::NumberRange(0, 1)),
    (b"a\n 9999999999,", TextFault::NumberRange(3, 2)),
    (
        b"340282366920938463463374607431768211456",
        TextFault::NumberRange(0, 1),
    ),
    // The first of two faults.
    (b"4294967296 $", TextFault::NumberRange(0, 1)),
    (b"$ 4294967296", TextFault::BadByte(0, 1)),
    (b"1a\n$", TextFault::BadByte(1, 1)),
    (b"# $\n;\n$", TextFault::BadByte(4, 2)),
];

#[test]
fn the_first_fault_is_told(rt: HostRuntime) {
    for (row, (text, fault)) in FAULTS.iter().enumerate() {
        assert!(rt; text.len() <= LONGEST);
        assert!(rt; tokens(rt.alloc(), text).err() == Some(*fault), "row {row}");
    }
}

/// A number of so many digits, each the same.
fn digits(alloc: Global, digit: u8, count: usize) -> Result<Vec<u8>, AllocError> {
    vec![in alloc; digit; count]
}

/// However many digits a number has, its value alone decides.
#[test]
fn numbers_have_any_length(rt: HostRuntime) {
    let zeros = digits(rt.alloc(), b'0', 10_000).expect(&rt, "memory");
    assert!(rt; are_tokens(rt.alloc(), &zeros, &[(Kind::Number(0), 0, 10_000, 1)]));
    let nines = digits(rt.alloc(), b'9', 10_000).expect(&rt, "memory");
    assert!(rt; nines.len() <= LONGEST);
    assert!(rt; tokens(rt.alloc(), &nines).err() == Some(TextFault::NumberRange(0, 1)));
}
