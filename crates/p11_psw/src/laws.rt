//! Laws of the definitions, over every status and word.
ghost use Rattle.std.specs.Prelude.{ℕ, ◌≡◌, ◌<◌, ◌^◌, bit_or};
ghost use Rattle.p11_psw.specs.declared.mode.Mode.{Mode};
ghost use Rattle.p11_psw.specs.declared.psw.Psw.{Psw};
ghost use Rattle.p11_psw.specs.Fields.{joined_mode, mode_number};
ghost use Rattle.p11_psw.specs.Sources.{status_from_return};
ghost use Rattle.p11_psw.specs.Status.{status_of, status_word};
ghost use Rattle.p11_psw.specs.Laws.Words.{without_unused};

/// A status can be read back from its word.
pub fn word_gives_fields()
    ensures { (p : Psw) → status_of (status_word p) ≡ p }
{}

/// The word of what a word says is that word with bits 11:8 made 0.
pub fn fields_stand_in_word()
    ensures { (word : ℕ) → word < 2 ^ 16 → status_word (status_of word) ≡ without_unused word }
{}

/// The word of a status is a word, and its bits 11:8 are 0.
pub fn word_has_16_bits()
    ensures fits { (p : Psw) → status_word p < 2 ^ 16 }
    ensures unused { (p : Psw) → without_unused (status_word p) ≡ status_word p }
{}

/// Joined modes have the bits of the one or of the other.
pub fn joined_mode_has_both_bits()
    ensures { (one other : Mode) → mode_number (joined_mode one other) ≡ bit_or (mode_number one) (mode_number other) }
{}

/// RTI and RTT can't leave user mode, nor change the priority there.
#[tactic(auto, unfolding(crate::specs::Sources::status_from_return))]
pub fn user_return_stays_in_user_mode()
    ensures current { (p : Psw) (word : ℕ) → p.current ≡ Mode.User → (status_from_return p word).current ≡ Mode.User }
    ensures previous { (p : Psw) (word : ℕ) → p.current ≡ Mode.User → p.previous ≡ Mode.User
        → (status_from_return p word).previous ≡ Mode.User }
    ensures priority { (p : Psw) (word : ℕ) → p.current ≡ Mode.User
        → (status_from_return p word).priority ≡ p.priority }
{}
