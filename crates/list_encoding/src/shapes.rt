// The operands that operations are written with.
ghost use Rattle.std.specs.Prelude.{◌≡◌, ◌≤◌, length};
ghost use Rattle.list_encoding.specs.Shapes.{slots_of};

use super::opcodes::Mnemonic;

/// What may stand in a place of an operation.
#[derive(Clone, Copy, Debug, PartialEq, Eq)]
pub enum Slot {
    /// A general register.
    R,
    /// A predicate.
    P,
    /// A branch target.
    B,
    /// A number, or the name of an address.
    V,
    /// A compare's destination: a predicate and an action.
    D,
    /// A number of sixteen bits.
    N,
}

/// What stands in the places of an operation, in order; one to four.
pub fn slots(mnemonic: Mnemonic) -> &'static [Slot]
    ensures slots { result.now ≡ slots_of mnemonic }
    ensures few { length result.now ≤ 4 }
{
    match mnemonic {
        Mnemonic::Alu(_) | Mnemonic::Mul | Mnemonic::Div | Mnemonic::Rem => {
            &[Slot::R, Slot::R, Slot::R]
        }
        Mnemonic::AluImm(_) | Mnemonic::Load(_) | Mnemonic::Store(_) => {
            &[Slot::R, Slot::R, Slot::V]
        }
        Mnemonic::Pbr => &[Slot::B, Slot::V],
        Mnemonic::Mvb => &[Slot::B, Slot::R],
        Mnemonic::Mvr => &[Slot::R, Slot::B],
        Mnemonic::Inb | Mnemonic::Outb | Mnemonic::Halt => &[Slot::R],
        Mnemonic::Cmp(_) => &[Slot::D, Slot::D, Slot::R, Slot::R],
        Mnemonic::CmpImm(_) => &[Slot::D, Slot::D, Slot::R, Slot::N],
        Mnemonic::Bru => &[Slot::B],
        Mnemonic::Brct | Mnemonic::Brcf => &[Slot::B, Slot::P],
        Mnemonic::Brl => &[Slot::B, Slot::B],
    }
}
