// The lines of a text and the fields of a line, one by one from the front.
ghost use Rattle.std.specs.Prelude.{◌≡◌, ◌<◌, ◌≤◌, ◌∷◌, [], length, MatchOption, IfSome, not, drop, position};
ghost use Rattle.std.specs.List.{position_or_len, before_first};
ghost use Rattle.event_script.specs.Fields.{is_line_end, is_blank as is_blank_byte, lines, fields};
ghost use Rattle.event_script.specs.Left.{lines_left, size_left};

fn is_blank(byte: u8) -> bool
    ensures { result ≡ is_blank_byte byte }
{
    byte == b' ' || byte == b'\t' || byte == b'\r'
}

/// Where the first line ends, if an LF ends it.
fn line_end(text: &[u8]) -> Option<usize>
    ensures value { result ≡ position is_line_end text.now }
    ensures bound { IfSome result (λ i. i < length text.now) }
{
    text.iter().position(|byte| *byte == b'\n')
}

/// Where the first field begins, if there is one.
fn field_start(line: &[u8]) -> Option<usize>
    ensures value { result ≡ position (λ b. not (is_blank_byte b)) line.now }
    ensures bound { IfSome result (λ i. i < length line.now) }
{
    line.iter().position(|byte| !is_blank(*byte))
}

/// Where the first blank is, if there is one.
fn field_end(line: &[u8]) -> Option<usize>
    ensures value { result ≡ position is_blank_byte line.now }
    ensures bound { IfSome result (λ i. i < length line.now) }
{
    line.iter().position(|byte| is_blank(*byte))
}

/// The first line of a text, without its LF, and the text behind that LF, if there is one.
pub(crate) fn first_line(text: &[u8]) -> (&[u8], Option<&[u8]>)
    ensures split { lines text.now ≡ result.0.now ∷ lines_left result.1 }
    ensures shorter { size_left result.1 ≤ length text.now }
{
    match line_end(text) {
        Some(end) => (&text[..end], Some(&text[end + 1..])),
        None => (text, None),
    }
}

/// The field with which a line begins, and the line behind it.
fn cut_field(line: &[u8]) -> (&[u8], &[u8])
    ensures field { result.0.now ≡ before_first is_blank_byte line.now }
    ensures rest { result.1.now ≡ drop (position_or_len is_blank_byte line.now) line.now }
{
    match field_end(line) {
        Some(end) => line.split_at(end),
        None => (line, &[]),
    }
}

/// The first field of a line, and the line behind it; None for a line without fields.
pub(crate) fn first_field(line: &[u8]) -> Option<(&[u8], &[u8])>
    ensures { MatchOption result (fields line.now ≡ []) (λ r. fields line.now ≡ r.0.now ∷ fields r.1.now) }
{
    match field_start(line) {
        Some(start) => Some(cut_field(&line[start..])),
        None => None,
    }
}
