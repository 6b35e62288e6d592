// The numbers that loads and stores move.
ghost use Rattle.std.specs.Prelude.{◌≡◌, ◌<◌, ◌^◌};
ghost use Rattle.operation.specs.Arithmetic.{bytes_of, extended};

use super::Size;

/// How many bytes a load or a store moves: 4, 2 or 1.
pub fn bytes(size: Size) -> u32
    ensures { result ≡ bytes_of size }
{
    match size {
        Size::Word => 4,
        Size::Half | Size::HalfU => 2,
        Size::Byte | Size::ByteU => 1,
    }
}

/// What a load leaves in a register, where `n` is the unsigned number in memory.
pub fn extend(size: Size, n: u32) -> u32
    requires { n < 256 ^ bytes_of size }
    ensures { result ≡ extended size n }
{
    match size {
        Size::Word | Size::HalfU | Size::ByteU => n,
        Size::Half => ((n as u16).cast_signed() as i32).cast_unsigned(),
        Size::Byte => ((n as u8).cast_signed() as i32).cast_unsigned(),
    }
}
