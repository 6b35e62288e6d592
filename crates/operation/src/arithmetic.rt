// The arithmetic and the tests of register operations, on 32 bits.
ghost use Rattle.std.specs.Prelude.{◌≡◌, ◌<◌};
ghost use Rattle.operation.specs.Arithmetic.{alu as alu_value, quotient as quotient_value, remainder as remainder_value, compare as compare_values};

use super::{AluKind, Test};

/// What a register operation makes of its operands.
pub fn alu(kind: AluKind, a: u32, b: u32) -> u32
    ensures { result ≡ alu_value kind a b }
{
    match kind {
        AluKind::Add => a.wrapping_add(b),
        AluKind::Sub => a.wrapping_sub(b),
        AluKind::And => a & b,
        AluKind::Or => a | b,
        AluKind::Xor => a ^ b,
        AluKind::Shl => a.wrapping_shl(b),
        AluKind::Shr => a.wrapping_shr(b),
        AluKind::Sar => a.cast_signed().wrapping_shr(b).cast_unsigned(),
        AluKind::Min => a.cast_signed().min(b.cast_signed()).cast_unsigned(),
        AluKind::Max => a.cast_signed().max(b.cast_signed()).cast_unsigned(),
    }
}

/// Whether a test holds.
pub fn compare(test: Test, a: u32, b: u32) -> bool
    ensures { result ≡ compare_values test a b }
{
    match test {
        Test::Ceq => a == b,
        Test::Cne => a != b,
        Test::Clt => a.cast_signed() < b.cast_signed(),
        Test::Cle => a.cast_signed() <= b.cast_signed(),
        Test::Cltu => a < b,
        Test::Cleu => a <= b,
    }
}

/// The signed quotient, toward zero.
pub fn quotient(a: u32, b: u32) -> u32
    requires { 0 < b }
    ensures { result ≡ quotient_value a b }
{
    a.cast_signed()
        .wrapping_div(b.cast_signed())
        .cast_unsigned()
}

/// The remainder of that division, with the sign of `a`.
pub fn remainder(a: u32, b: u32) -> u32
    requires { 0 < b }
    ensures { result ≡ remainder_value a b }
{
    a.cast_signed()
        .wrapping_rem(b.cast_signed())
        .cast_unsigned()
}
