// The numbers of a file, big-endian, and where its parts begin.
ghost use Rattle.std.specs.Prelude.{◌≡◌, ◌≤◌, ◌<◌, ◌+◌, ◌^◌, length};
ghost use Rattle.image_format.specs.Layout.{number_at};
ghost use Rattle.object_format.specs.Layout.{is_version_two as has_version_two, numbers_offset as numbers_at, names_offset as names_at, header_number as number_in_header, units as units_in, latencies as latencies_in, written_busy_times as written_busy_times_in, busy_times as busy_times_in, given_length as length_in_header, blocks_offset as blocks_at, words_offset as words_at, references_offset as references_at, labels_offset as labels_at, initial_offset as initial_at};

use byteorder::{BigEndian, ByteOrder};

/// How far behind the header's first number the others stand.
pub const NAMES: usize = 2;

pub const BLOCKS: usize = 6;

pub const WORDS: usize = 10;

pub const REFERENCES: usize = 14;

pub const LABELS: usize = 18;

pub const DATA: usize = 22;

pub const INITIAL: usize = 26;

pub const NAME_BYTES: usize = 30;

/// How many bytes the header's numbers take.
const NUMBERS: usize = 34;

/// The bytes before the names of a file of version 2.
pub const LONG_HEADER: usize = 28 + NUMBERS;

/// Whether the file begins as one of version 2 does.
pub fn is_version_two(bytes: &[u8]) -> bool
    ensures { result ≡ has_version_two bytes.now }
{
    bytes.starts_with(b"TNKP")
}

/// Where the header's numbers begin, behind the description.
pub fn numbers_offset(bytes: &[u8]) -> usize
    ensures offset { result ≡ numbers_at bytes.now }
    ensures least { 19 ≤ result }
    ensures greatest { result ≤ 28 }
{
    if is_version_two(bytes) { 28 } else { 19 }
}

pub fn names_offset(bytes: &[u8]) -> usize
    ensures offset { result ≡ names_at bytes.now }
    ensures bound { result ≤ 62 }
{
    numbers_offset(bytes) + NUMBERS
}

pub fn short_number(bytes: &[u8], offset: usize) -> u16
    requires { offset + 2 ≤ length bytes.now }
    ensures { result ≡ number_at 2 offset bytes.now }
{
    BigEndian::read_u16(&bytes[offset..])
}

pub fn number(bytes: &[u8], offset: usize) -> u32
    requires { offset + 4 ≤ length bytes.now }
    ensures { result ≡ number_at 4 offset bytes.now }
{
    BigEndian::read_u32(&bytes[offset..])
}

pub fn header_number(bytes: &[u8], place: usize) -> u32
    requires there { names_at bytes.now ≤ length bytes.now }
    requires inside { place ≤ 30 }
    ensures { result ≡ number_in_header place bytes.now }
{
    number(bytes, numbers_offset(bytes) + place)
}

/// A number of the header as a size.
pub fn size(bytes: &[u8], place: usize) -> usize
    requires there { names_at bytes.now ≤ length bytes.now }
    requires inside { place ≤ 30 }
    ensures value { result ≡ number_in_header place bytes.now }
    ensures bound { result < 2 ^ 32 }
{
    header_number(bytes, place) as usize
}

pub fn blocks_offset(bytes: &[u8]) -> usize
    requires { names_at bytes.now ≤ length bytes.now }
    ensures value { result ≡ blocks_at bytes.now }
    ensures bound { result < 2 ^ 33 }
{
    names_offset(bytes) + size(bytes, NAME_BYTES)
}

pub fn words_offset(bytes: &[u8]) -> usize
    requires { names_at bytes.now ≤ length bytes.now }
    ensures value { result ≡ words_at bytes.now }
    ensures bound { result < 2 ^ 37 }
{
    blocks_offset(bytes) + 10 * size(bytes, BLOCKS)
}

pub fn references_offset(bytes: &[u8]) -> usize
    requires { names_at bytes.now ≤ length bytes.now }
    ensures value { result ≡ references_at bytes.now }
    ensures bound { result < 2 ^ 38 }
{
    words_offset(bytes) + 8 * size(bytes, WORDS)
}

pub fn labels_offset(bytes: &[u8]) -> usize
    requires { names_at bytes.now ≤ length bytes.now }
    ensures value { result ≡ labels_at bytes.now }
    ensures bound { result < 2 ^ 39 }
{
    references_offset(bytes) + 8 * size(bytes, REFERENCES)
}

pub fn initial_offset(bytes: &[u8]) -> usize
    requires { names_at bytes.now ≤ length bytes.now }
    ensures value { result ≡ initial_at bytes.now }
    ensures bound { result < 2 ^ 40 }
{
    labels_offset(bytes) + 8 * size(bytes, LABELS)
}

/// The length that the header gives.
pub fn given_length(bytes: &[u8]) -> usize
    requires { names_at bytes.now ≤ length bytes.now }
    ensures { result ≡ length_in_header bytes.now }
{
    initial_offset(bytes) + size(bytes, INITIAL)
}

/// The unit counts, by the kind's number.
pub fn units(bytes: &[u8]) -> [u8; 5]
    requires { 19 ≤ length bytes.now }
    ensures { result ≡ units_in bytes.now }
{
    [bytes[5], bytes[6], bytes[7], bytes[8], bytes[9]]
}

/// The latencies, by the kind's number.
pub fn latencies(bytes: &[u8]) -> [u8; 9]
    requires { 19 ≤ length bytes.now }
    ensures { result ≡ latencies_in bytes.now }
{
    [
        bytes[10], bytes[11], bytes[12], bytes[13], bytes[14], bytes[15], bytes[16], bytes[17],
        bytes[18],
    ]
}

fn written_busy_times(bytes: &[u8]) -> [u8; 9]
    requires { 28 ≤ length bytes.now }
    ensures { result ≡ written_busy_times_in bytes.now }
{
    [
        bytes[19], bytes[20], bytes[21], bytes[22], bytes[23], bytes[24], bytes[25], bytes[26],
        bytes[27],
    ]
}

/// The busy times, by the kind's number: in version 1 all are 1.
pub fn busy_times(bytes: &[u8]) -> [u8; 9]
    requires { numbers_at bytes.now ≤ length bytes.now }
    ensures { result ≡ busy_times_in bytes.now }
{
    if is_version_two(bytes) {
        written_busy_times(bytes)
    } else {
        [1; 9]
    }
}
