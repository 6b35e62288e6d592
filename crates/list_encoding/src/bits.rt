// Numbers of a few bits inside a word.
ghost use Rattle.std.specs.Prelude.{◌≡◌, ◌<◌, ◌+◌, ◌*◌, ◌^◌};
ghost use Rattle.list_encoding.specs.Bits.{bits as bits_of};

/// So many bits of a number, from the bit `low` on.
pub fn bits(n: u64, low: u32, count: u32) -> u64
    requires inside { low < 64 }
    requires few { count < 64 }
    ensures value { result ≡ bits_of low count n }
    ensures bound { result < 2 ^ count }
{
    (n >> low) % (1 << count)
}

/// The bits of a number, and behind them so many bits of another.
pub fn append(high: u64, count: u32, low: u64) -> u64
    requires few { count < 64 }
    requires low { low < 2 ^ count }
    requires room { high * 2 ^ count + low < 2 ^ 64 }
    ensures { result ≡ high * 2 ^ count + low }
{
    high << count | low
}
