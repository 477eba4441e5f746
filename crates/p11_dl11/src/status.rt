//! What the two status registers have in common.
ghost use Rattle.std.specs.Prelude.{◌≡◌, ◌≤◌, ◌<◌, ◌^◌};
ghost use Rattle.p11_dl11.specs.StatusRegister.{request_after_enable, section_word};
ghost use Rattle.p11_words.specs.Bits.{bit_of};

use p11_words::{bit, flag};

/// The word of a section's status register: done or ready in bit 7, the enable in bit 6.
pub(crate) fn section_word(attention: bool, enable: bool) -> u16
    ensures { result ≡ section_word attention enable }
{
    flag(attention, 0o200) + flag(enable, 0o100)
}

/// The enable in a word that is written to a status register, its bit 6.
pub(crate) fn enable_in(word: u16) -> bool
    ensures { result ≡ bit_of word 0o100 }
{
    bit(word, 6)
}

/// The request after a write of the enable, from the request and the enable before it and done or ready.
pub(crate) fn requests(request: bool, was_enabled: bool, attention: bool, enable: bool) -> bool
    ensures { result ≡ request_after_enable request was_enabled attention enable }
{
    enable && (request || attention && !was_enabled)
}
