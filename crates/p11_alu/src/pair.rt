//! A register pair: 32 bits in two words.
ghost use Rattle.std.specs.Prelude.{◌≡◌};
ghost use Rattle.p11_alu.specs.Pairs.{number_of, pair_of, pair_value};

/// Two words that are one number of 32 bits: a product, a dividend, or what ASHC shifts.
#[derive(Clone, Copy)]
pub struct Pair {
    pub high: u16,
    pub low: u16,
}

/// The pair whose number is `number`.
pub(crate) fn pair_from(number: u32) -> Pair
    ensures { result ≡ pair_of number }
{
    Pair {
        high: (number >> 16) as u16,
        low: (number & 0xffff) as u16,
    }
}

/// The number of a pair.
pub(crate) fn unsigned_pair(pair: Pair) -> u32
    ensures { result ≡ number_of pair }
{
    u32::from(pair.high) << 16 | u32::from(pair.low)
}

/// The signed number of a pair.
pub(crate) fn signed_pair(pair: Pair) -> i64
    ensures { result ≡ pair_value pair }
{
    i64::from(unsigned_pair(pair).cast_signed())
}
