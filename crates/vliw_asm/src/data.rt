// The data of a text: its labels, its size, and its bytes up to the last that is given.
ghost use Rattle.std.specs.Prelude.{◌≡◌, ◌+◌, ◌-◌, ◌++◌, ◌<◌, ◌≤◌, ◌⊎◌, [], ◌∷◌, length, map, replicate, IfErr, OnOk};
ghost use Rattle.std.specs.Int.{to_le_bytes, w32};
ghost use Rattle.asm_syntax.specs.Meanings.{bits as bits_of, byte as byte_of};
ghost use Rattle.asm_syntax.specs.Views.{numbers_of};
ghost use Rattle.vliw_asm.specs.declared.stop.Stop.{Stop};
ghost use Rattle.vliw_asm.specs.declared.stop.Cause.{Cause};

use super::stop::{Cause, Stop};
use asm_syntax::lexemes::{Lexeme, number};
use asm_syntax::meanings::{bits, byte};
use std::alloc::Global;

/// The most bytes of data of an object.
const SIZE_LIMIT: u32 = 1_048_576;

/// Data with its labels.
#[derive(Drop)]
pub struct Data {
    /// A name's number and an offset.
    labels: Vec<(u32, u32)>,
    size: u32,
    /// The bytes up to the last that is given; zeros follow up to the size.
    init: Vec<u8>,
    ghost few: { size ≤ 1048576 },
}

/// The bytes of numbers.
fn push_numbers(init: &mut Vec<u8>, numbers: &[Lexeme<'_>]) -> Result<(), Stop>
    ensures stop { IfErr result (λ why. why ≡ Stop.NoMemory) }
    ensures init { OnOk result (init.new.items ≡ init.old.items ++ map byte_of (numbers_of numbers.now)) }
{
    for lexeme in numbers {
        init.push(byte(number(lexeme)))?;
    }
    Ok(())
}

impl Data {
    /// No data.
    pub fn new(alloc: Global) -> Self
        ensures labels { result.labels.items ≡ [] }
        ensures size { result.size ≡ 0 }
        ensures init { result.init.items ≡ [] }
    {
        Data {
            labels: Vec::new(alloc),
            size: 0,
            init: Vec::new(alloc),
        }
    }

    /// A label at the present offset.
    pub fn label(&mut self, name: u32) -> Result<(), Stop>
        ensures stop { IfErr result (λ why. why ≡ Stop.NoMemory) }
        ensures labels { OnOk result (self.new.labels.items ≡ self.old.labels.items ++ (name, self.old.size) ∷ []) }
        ensures size { self.new.size ≡ self.old.size }
        ensures init { self.new.init ≡ self.old.init }
    {
        self.labels.push((name, self.size))?;
        Ok(())
    }

    /// So many zero bytes.
    pub fn push_space(&mut self, count: u32) -> Result<(), Stop>
        ensures stop { IfErr result (λ why. (why ≡ Stop.Faulty Cause.Limit) × (1048576 < self.old.size + count)) }
        ensures size { OnOk result (self.new.size ≡ self.old.size + count) }
        ensures room { OnOk result (self.old.size + count ≤ 1048576) }
        ensures init { self.new.init ≡ self.old.init }
        ensures labels { self.new.labels ≡ self.old.labels }
    {
        if count > SIZE_LIMIT - self.size {
            return Err(Stop::Faulty(Cause::Limit));
        }
        self.size += count;
        Ok(())
    }

    /// Bytes, each by its number.
    pub fn push_bytes(&mut self, numbers: &[Lexeme<'_>]) -> Result<(), Stop>
        requires { length self.old.init.items ≤ self.old.size }
        ensures stop { IfErr result (λ why. (why ≡ Stop.NoMemory)
            ⊎ ((why ≡ Stop.Faulty Cause.Limit) × (1048576 < self.old.size + length numbers.now))) }
        ensures size { OnOk result (self.new.size ≡ self.old.size + length numbers.now) }
        ensures room { OnOk result (self.old.size + length numbers.now ≤ 1048576) }
        ensures init { OnOk result (self.new.init.items ≡ self.old.init.items
            ++ (replicate (self.old.size - length self.old.init.items) 0 ++ map byte_of (numbers_of numbers.now))) }
        ensures labels { self.new.labels ≡ self.old.labels }
    {
        if numbers.len() > (SIZE_LIMIT - self.size) as usize {
            return Err(Stop::Faulty(Cause::Limit));
        }
        self.init.resize(self.size as usize, 0)?;
        push_numbers(&mut self.init, numbers)?;
        self.size += numbers.len() as u32;
        Ok(())
    }

    /// The four bytes of a number, the lowest first.
    pub fn push_word(&mut self, number: i64) -> Result<(), Stop>
        requires { length self.old.init.items ≤ self.old.size }
        ensures stop { IfErr result (λ why. (why ≡ Stop.NoMemory)
            ⊎ ((why ≡ Stop.Faulty Cause.Limit) × (1048576 < self.old.size + 4))) }
        ensures size { OnOk result (self.new.size ≡ self.old.size + 4) }
        ensures room { OnOk result (self.old.size + 4 ≤ 1048576) }
        ensures init { OnOk result (self.new.init.items ≡ self.old.init.items
            ++ (replicate (self.old.size - length self.old.init.items) 0 ++ to_le_bytes w32 (bits_of number))) }
        ensures labels { self.new.labels ≡ self.old.labels }
    {
        if SIZE_LIMIT - self.size < 4 {
            return Err(Stop::Faulty(Cause::Limit));
        }
        self.init.resize(self.size as usize, 0)?;
        self.init.extend_from_slice(&bits(number).to_le_bytes())?;
        self.size += 4;
        Ok(())
    }
}
