//! The sizes that a machine can have: thousands of words of memory, and the cache's decoded words.
ghost use Rattle.std.specs.Prelude.{◌≡◌, ◌≤◌, true};
ghost use Rattle.p11_panel.specs.Calls.Sizes.{is_size, sizes_of};

use p11_lines::Fault;
use std::marker::Model;

/// The sizes of a machine, which are accepted ones.
#[derive(Clone, Copy, PartialEq, Eq)]
pub struct Config {
    kwords: u32,
    lines: u32,
}

impl Model for Config {
    ghost use Rattle.std.specs.Prelude.{◌≡◌, true};
    ghost use Rattle.p11_panel.specs.Calls.Sizes.{Sizes, is_size};

    ghost Value = { Sizes };

    ghost view = { λ c. record { kwords = c.kwords; lines = c.lines } };

    ghost invariant = { λ c. is_size c.kwords c.lines ≡ true };

    ghost inverse = { λ s. record { kwords = s.kwords; lines = s.lines } };
}

/// Whether a machine can have these sizes.
#[tactic(auto, unfolding(crate::specs::Calls::Sizes::is_size))]
fn accepts(kwords: u32, lines: u32) -> bool
    ensures { result ≡ is_size kwords lines }
{
    4 <= kwords && kwords <= 124 && kwords % 4 == 0 && lines <= 4096
}

impl Config {
    /// The sizes of a machine: thousands (1,024) of words of memory, and how many decoded words it may keep.
    ///
    /// # Errors
    ///
    /// `BadSize` unless memory is 4 to 124 thousand words in steps of 4, and decoded words are 4,096 at most.
    #[tactic(auto, unfolding(crate::specs::Calls::Sizes::sizes_of))]
    pub fn new(kwords: u32, lines: u32) -> Result<Config, Fault>
        ensures { result ≡ sizes_of kwords lines }
    {
        if accepts(kwords, lines) {
            Ok(Config { kwords, lines })
        } else {
            Err(Fault::BadSize)
        }
    }

    /// Thousands (1,024) of words of memory: 4 to 124.
    #[tactic(auto, unfolding(crate::specs::Calls::Sizes::is_size))]
    pub fn kwords(self) -> u32
        ensures value { result ≡ self.kwords }
        ensures range { result ≤ 124 }
    {
        self.kwords
    }

    /// How many decoded words may be kept: 0 to 4,096.
    #[tactic(auto, unfolding(crate::specs::Calls::Sizes::is_size))]
    pub fn lines(self) -> u32
        ensures value { result ≡ self.lines }
        ensures range { result ≤ 4096 }
    {
        self.lines
    }
}
