// What stands in a line: words and numbers.
use super::trouble::Trouble;
use std::alloc::Global;

/// Refuses a text whose words are not separated by single spaces.
pub fn spaced(text: &str) -> Result<(), Trouble> {
    for word in text.split(' ') {
        if word.is_empty() {
            return Err(Trouble::Unreadable(0));
        }
    }
    Ok(())
}

/// The first word, and the others; nothing, where there is none.
pub fn split_word(text: &str) -> (&str, &str) {
    match text.split_once(' ') {
        Some((word, others)) => (word, others),
        None => (text, ""),
    }
}

/// The name that comes first, and the other words.
pub fn split_name(words: &str) -> Result<(&str, &str), Trouble> {
    let (name, others) = split_word(words);
    if name.is_empty() {
        Err(Trouble::Unreadable(0))
    } else {
        Ok((name, others))
    }
}

/// The words as a program is given them, where `''` is the empty one.
pub fn owned(alloc: Global, text: &str) -> Result<Vec<String>, Trouble> {
    let mut words = Vec::new(alloc);
    for word in text.split(' ') {
        words.push(String::from_str(alloc, spelled(word))?)?;
    }
    Ok(words)
}

/// The word that is written so.
fn spelled(written: &str) -> &str {
    if written == "''" { "" } else { written }
}

/// The number that decimal digits say, and nothing beside them: a sign, which `parse` takes, can't be read.
pub fn number(digits: &str) -> Option<usize> {
    match digits.as_bytes() {
        [b'0'..=b'9', ..] => digits.parse().ok(),
        _ => None,
    }
}

/// FROM..TO, of which the first number is below the second.
pub fn range(text: &str) -> Option<(usize, usize)> {
    let (from, to) = text.split_once("..")?;
    let (from, to) = (number(from)?, number(to)?);
    if from < to { Some((from, to)) } else { None }
}

/// The number that the digits say, or that which stands for none.
pub fn number_or(left_out: usize, digits: &str) -> Option<usize> {
    if digits.is_empty() {
        Some(left_out)
    } else {
        number(digits)
    }
}
