//! The memory address of a transfer.
ghost use Rattle.std.specs.Prelude.{◌≡◌, ◌<◌, ◌≤◌, ◌+◌, ◌*◌, ◌/◌, ◌%◌};
ghost use Rattle.p11_rk11.specs.Address.{word_address};

use std::marker::Model;

/// A memory address of 18 bits, 0 to 777776: RKCS 5:4 and RKBA. It is even.
#[derive(Clone, Copy)]
pub struct BusAddress(u32);

impl Model for BusAddress {
    ghost use Rattle.std.specs.Prelude.{◌≡◌, ℕ, ◌<◌, ◌%◌};

    ghost Value = { ℕ };

    ghost view = { λ a. a.0 };

    ghost invariant = { λ a. (a.0 < 0o1000000) × (a.0 % 2 ≡ 0) };

    ghost inverse = { λ n. record { 0 = n } };
}

impl BusAddress {
    pub(crate) fn zero() -> BusAddress
        ensures { result ≡ 0 }
    {
        BusAddress(0)
    }

    /// All 18 bits.
    pub(crate) fn all(self) -> u32
        ensures value { result ≡ self }
        ensures bound { result < 0o1000000 }
        ensures even { result % 2 ≡ 0 }
    {
        self.0
    }

    /// Bits 17:16, 0 to 3.
    pub(crate) fn extension(self) -> u16
        ensures value { result ≡ self / 0o200000 }
        ensures bound { result < 4 }
    {
        (self.0 / 0o200000) as u16
    }

    /// Bits 15:0.
    pub(crate) fn low(self) -> u16
        ensures { result ≡ self % 0o200000 }
    {
        (self.0 % 0o200000) as u16
    }

    /// This address with other bits 17:16.
    pub(crate) fn with_extension(self, extension: u16) -> BusAddress
        requires { extension < 4 }
        ensures { result ≡ extension * 0o200000 + self % 0o200000 }
    {
        BusAddress(u32::from(extension) * 0o200000 + self.0 % 0o200000)
    }

    /// This address with other bits 15:1.
    pub(crate) fn with_low(self, word: u16) -> BusAddress
        ensures { result ≡ self / 0o200000 * 0o200000 + word / 2 * 2 }
    {
        BusAddress(self.0 / 0o200000 * 0o200000 + u32::from(word) / 2 * 2)
    }

    /// The address so many words on, where past 777776 comes 0, or always the same one.
    #[tactic(auto, unfolding(crate::specs::Address::word_address))]
    pub(crate) fn after(self, stays: bool, words: u32) -> BusAddress
        requires { words ≤ 256 }
        ensures { result ≡ word_address self stays words }
    {
        if stays {
            self
        } else {
            BusAddress((self.0 + 2 * words) % 0o1000000)
        }
    }

    /// The address of word `k` of a sector: the next word's each time, or always the first word's.
    pub(crate) fn of_word(self, stays: bool, k: u32) -> u32
        requires { k ≤ 256 }
        ensures { result ≡ word_address self stays k }
    {
        self.after(stays, k).0
    }
}
