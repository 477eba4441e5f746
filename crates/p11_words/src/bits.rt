//! Single bits of a register's word.
ghost use Rattle.std.specs.Prelude.{◌≡◌, ◌≤◌, ◌<◌, ◌^◌};
ghost use Rattle.p11_words.specs.Bits.{bit_of, flag};

/// The flag as a bit of a word: its weight if it is set, else 0.
#[inline(always)]
pub fn flag(is_set: bool, weight: u16) -> u16
    ensures value { result ≡ flag is_set weight }
    ensures bound { result ≤ weight }
{
    if is_set { weight } else { 0 }
}

/// Whether the word's bit at this place, 0 for the lowest to 15, is set. Its weight is a power of 2.
#[inline(always)]
pub fn bit(word: u16, place: u32) -> bool
    requires { place < 16 }
    ensures { result ≡ bit_of word (2 ^ place) }
{
    word >> place & 1 == 1
}
