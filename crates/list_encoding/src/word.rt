// Words, both ways.
ghost use Rattle.std.specs.Prelude.{◌≡◌, ◌<◌, IfSome, IfNone, option_map};
ghost use Rattle.list_encoding.specs.Word.{HasFields, HasReading, IsReadingOf, is_head as is_head_of, pause_in};
ghost use Rattle.list_encoding.specs.Reading.{guarded_in};
ghost use Rattle.list_encoding.specs.Fields.{fields_of};
ghost use Rattle.list_encoding.specs.Written.{word_of};

use super::Coded;
use super::bits::{append, bits};
use super::fields::{Fields, operation, operation_fields};
use super::opcodes::{mnemonic_of, opcode};
use operation::Guarded;

/// The reading of a word, None exactly where it has none.
pub fn decode(word: u64) -> Option<Coded>
    ensures reading { IsReadingOf word result }
    ensures guarded { option_map (λ c. c.guarded) result ≡ guarded_in word }
{
    let op = operation(fields_in(word)?)?;
    let guarded = Guarded {
        guard: bits(word, 42, 5) as u8,
        op,
    };
    Some(Coded {
        head: is_head(word),
        unit: bits(word, 59, 4) as u8,
        pause: pause(word),
        guarded,
    })
}

/// A word's fields, None where its opcode names no operation.
fn fields_in(word: u64) -> Option<Fields>
    ensures found { IfSome result (HasFields word) }
    ensures none { IfNone result ((f : Fields) → HasFields word f → ⊥) }
{
    Some(Fields {
        mnemonic: mnemonic_of(bits(word, 47, 7) as u8)?,
        d: bits(word, 37, 5) as u8,
        s: bits(word, 32, 5) as u8,
        tail: bits(word, 0, 32) as u32,
    })
}

/// Whether a word has the head mark.
pub fn is_head(word: u64) -> bool
    ensures { result ≡ is_head_of word }
{
    bits(word, 63, 1) == 1
}

/// A word's pause; it counts where the word has the head mark.
pub fn pause(word: u64) -> u8
    ensures value { result ≡ pause_in word }
    ensures bound { result < 32 }
{
    bits(word, 54, 5) as u8
}

/// The word of a reading.
pub fn encode(c: &Coded) -> u64
    ensures reading { HasReading result c.now }
    ensures word { result ≡ word_of c.now.head c.now.unit c.now.pause c.now.guarded.guard (fields_of c.now.guarded.op) }
{
    let fields = operation_fields(&c.guarded.op);
    let place = append(append(c.head as u64, 4, c.unit as u64), 5, c.pause as u64);
    let named = append(place, 7, opcode(fields.mnemonic) as u64);
    let guarded = append(named, 5, c.guarded.guard as u64);
    let operands = append(append(guarded, 5, fields.d as u64), 5, fields.s as u64);
    append(operands, 32, fields.tail as u64)
}
