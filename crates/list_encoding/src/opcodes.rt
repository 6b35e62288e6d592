// The opcodes, both ways.
ghost use Rattle.std.specs.Prelude.{◌≡◌, ◌<◌, ◌≤◌, IfSome, IfNone};
ghost use Rattle.list_encoding.specs.Opcodes.{opcode_of, alu_number, test_number, load_opcode, store_opcode};

use operation::{AluKind, Size, Test};

/// Which operation it is, without its operands. A store's size is `Word`, `Half` or `Byte`.
#[derive(Clone, Copy, Debug, PartialEq, Eq)]
pub enum Mnemonic {
    Alu(AluKind),
    AluImm(AluKind),
    Pbr,
    Mvb,
    Mvr,
    Mul,
    Div,
    Rem,
    Load(Size),
    Store(Size),
    Inb,
    Outb,
    Cmp(Test),
    CmpImm(Test),
    Bru,
    Brct,
    Brcf,
    Brl,
    Halt,
}

/// The opcode of an operation. 128 for a store of a size that no store has.
pub fn opcode(mnemonic: Mnemonic) -> u8
    ensures { result ≡ opcode_of mnemonic }
{
    match mnemonic {
        Mnemonic::Alu(kind) => 1 + kind as u8,
        Mnemonic::AluImm(kind) => 17 + kind as u8,
        Mnemonic::Pbr => 33,
        Mnemonic::Mvb => 34,
        Mnemonic::Mvr => 35,
        Mnemonic::Mul => 40,
        Mnemonic::Div => 41,
        Mnemonic::Rem => 42,
        Mnemonic::Load(size) => of_load(size),
        Mnemonic::Store(size) => of_store(size),
        Mnemonic::Inb => 56,
        Mnemonic::Outb => 57,
        Mnemonic::Cmp(test) => 64 + test as u8,
        Mnemonic::CmpImm(test) => 72 + test as u8,
        Mnemonic::Bru => 80,
        Mnemonic::Brct => 81,
        Mnemonic::Brcf => 82,
        Mnemonic::Brl => 83,
        Mnemonic::Halt => 84,
    }
}

fn of_load(size: Size) -> u8
    ensures { result ≡ load_opcode size }
{
    match size {
        Size::Word => 48,
        Size::Half => 49,
        Size::HalfU => 50,
        Size::Byte => 51,
        Size::ByteU => 52,
    }
}

fn of_store(size: Size) -> u8
    ensures { result ≡ store_opcode size }
{
    match size {
        Size::Word => 53,
        Size::Half => 54,
        Size::Byte => 55,
        Size::HalfU | Size::ByteU => 128,
    }
}

/// The operation that an opcode names, None where it names none.
pub fn mnemonic_of(opcode: u8) -> Option<Mnemonic>
    requires { opcode < 128 }
    ensures found { IfSome result (λ m. opcode_of m ≡ opcode) }
    ensures none { IfNone result ((m : Mnemonic) → opcode_of m ≡ opcode → ⊥) }
{
    Some(match opcode {
        1..=10 => Mnemonic::Alu(alu_kind(opcode - 1)),
        17..=26 => Mnemonic::AluImm(alu_kind(opcode - 17)),
        33 => Mnemonic::Pbr,
        34 => Mnemonic::Mvb,
        35 => Mnemonic::Mvr,
        40 => Mnemonic::Mul,
        41 => Mnemonic::Div,
        42 => Mnemonic::Rem,
        48..=52 => Mnemonic::Load(load_size(opcode)),
        53..=55 => Mnemonic::Store(store_size(opcode)),
        56 => Mnemonic::Inb,
        57 => Mnemonic::Outb,
        64..=69 => Mnemonic::Cmp(test(opcode - 64)),
        72..=77 => Mnemonic::CmpImm(test(opcode - 72)),
        80 => Mnemonic::Bru,
        81 => Mnemonic::Brct,
        82 => Mnemonic::Brcf,
        83 => Mnemonic::Brl,
        84 => Mnemonic::Halt,
        _ => return None,
    })
}

fn alu_kind(number: u8) -> AluKind
    requires { number < 10 }
    ensures { alu_number result ≡ number }
{
    match number {
        0 => AluKind::Add,
        1 => AluKind::Sub,
        2 => AluKind::And,
        3 => AluKind::Or,
        4 => AluKind::Xor,
        5 => AluKind::Shl,
        6 => AluKind::Shr,
        7 => AluKind::Sar,
        8 => AluKind::Min,
        _ => AluKind::Max,
    }
}

fn test(number: u8) -> Test
    requires { number < 6 }
    ensures { test_number result ≡ number }
{
    match number {
        0 => Test::Ceq,
        1 => Test::Cne,
        2 => Test::Clt,
        3 => Test::Cle,
        4 => Test::Cltu,
        _ => Test::Cleu,
    }
}

fn load_size(opcode: u8) -> Size
    requires first { 48 ≤ opcode }
    requires last { opcode ≤ 52 }
    ensures { load_opcode result ≡ opcode }
{
    match opcode {
        48 => Size::Word,
        49 => Size::Half,
        50 => Size::HalfU,
        51 => Size::Byte,
        _ => Size::ByteU,
    }
}

fn store_size(opcode: u8) -> Size
    requires first { 53 ≤ opcode }
    requires last { opcode ≤ 55 }
    ensures { store_opcode result ≡ opcode }
{
    match opcode {
        53 => Size::Word,
        54 => Size::Half,
        _ => Size::Byte,
    }
}
