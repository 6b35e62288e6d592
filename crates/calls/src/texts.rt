// Numbers in texts.
use tnk_text::decimal;

/// A field, and its value.
const DECIMALS: [(&[u8], Option<u64>); 16] = [
    (b"0", Some(0)),
    (b"7", Some(7)),
    (b"42", Some(42)),
    (b"007", Some(7)),
    (b"0000000000", Some(0)),
    (b"1234567890", Some(1_234_567_890)),
    (b"4294967296", Some(4_294_967_296)),
    (b"9999999999", Some(9_999_999_999)),
    (b"", None),
    (b"00000000000", None),
    (b"12345678901", None),
    (b"/", None),
    (b":", None),
    (b"-1", None),
    (b"+1", None),
    (b"1 ", None),
];

#[test]
fn fields_of_digits_have_a_value(rt: HostRuntime) {
    for (row, (field, value)) in DECIMALS.iter().enumerate() {
        assert!(rt; decimal(field) == *value, "row {row}");
    }
}
