//! Bytes of words, and the one fault of a reference on the bus.
ghost use Rattle.std.specs.Prelude.{◌≡◌};
ghost use Rattle.p11_unibus.specs.Bytes.{byte_at, even, with_byte};

/// Nothing answered at the address.
#[derive(Clone, Copy)]
pub struct TimeOut;

/// The even address of the word that holds the byte at an address.
#[inline(always)]
pub fn even_address(address: u32) -> u32
    ensures { result ≡ even address }
{
    address - address % 2
}

/// The byte of a word that stands at an address: the low one at an even address, the high one at an odd one.
#[inline(always)]
pub fn byte_of(address: u32, word: u16) -> u16
    ensures { result ≡ byte_at address word }
{
    if address % 2 == 0 {
        word % 256
    } else {
        word / 256
    }
}

/// A word with the byte that stands at an address replaced by the low byte of `byte`.
#[inline(always)]
pub fn replace_byte(address: u32, byte: u16, word: u16) -> u16
    ensures { result ≡ with_byte address byte word }
{
    if address % 2 == 0 {
        word / 256 * 256 + byte % 256
    } else {
        word % 256 + byte % 256 * 256
    }
}
