// What holds of numbers and their bytes, as the contract of a function that does nothing.
ghost use Rattle.tnk_base.specs.NumberBytes.{WrittenAgain};

/// Bytes that were read as a big-endian number and are written again are the same bytes.
pub fn written_again()
    ensures { WrittenAgain }
{}
