//! What the definitions of the bus say together, in every state: each is a function that does nothing.
ghost use Rattle.std.specs.Prelude.{◌≡◌, ◌↔◌, ◌%◌, ◌≤◌, ◌<◌, ℕ, false, Some, None};
ghost use Rattle.p11_unibus.specs.Acts.{bus_after_turn, is_any_due};
ghost use Rattle.p11_rk11.specs.Acts.{stores_of};
ghost use Rattle.p11_memory.specs.Memory.{has_word, new_memory};
ghost use Rattle.p11_unibus.specs.Bytes.{byte_at, with_byte};
ghost use Rattle.p11_unibus.specs.Calls.References.{answers};
ghost use Rattle.p11_unibus.specs.Laws.Due.{acts_in, IsNextDue, NoneLater};
ghost use Rattle.p11_unibus.specs.Due.{next_due};
ghost use Rattle.p11_unibus.specs.Laws.Words.{GrantsNoneLower, ShowsThere, StaysElsewhere};
ghost use Rattle.p11_unibus.specs.Registers.{register_at};
ghost use Rattle.p11_unibus.specs.State.{BusState};
ghost use Rattle.p11_memory.specs.Laws.Memory.{io_page};
ghost use Rattle.p11_unibus.specs.Kept.Written.{ChangedOnly};

use crate::source::Source;
use p11_psw::Priority;
use p11_rk11::{memory_stays, words_that_stay};

/// Memory of 124 thousand (1,024) words at most has no word on the I/O page.
#[tactic(auto, unfolding(p11_memory::specs::Memory::new_memory, p11_memory::specs::Memory::has_word))]
pub fn memory_ends_below_the_io_page(kwords: u32, address: u32)
    requires size { kwords ≤ 124 }
    requires page { io_page ≤ address }
    ensures { has_word (new_memory kwords) address ≡ false }
{}

/// The registers of the devices and the switches stand on the I/O page: below it there is none.
#[tactic(auto, unfolding(crate::specs::Registers::register_at))]
pub fn registers_stand_on_the_io_page()
    ensures { (pa : ℕ) → pa < io_page → register_at pa ≡ None }
{}

/// A byte that replaces one of a word is the byte that is then read there.
pub fn a_byte_is_read_back(address: u32, byte: u16, word: u16)
    ensures { byte_at address (with_byte address byte word) ≡ byte % 256 }
{}

/// An odd address answers nowhere.
#[tactic(auto, unfolding(crate::specs::Calls::References::answers, crate::specs::Bus::see, p11_memory::specs::Memory::has_word, crate::specs::Registers::register_at))]
pub fn an_odd_address_answers_nowhere(turn: u64, address: u32)
    requires { address % 2 ≡ 1 }
    ensures { (b : BusState) → answers turn address b ≡ false }
{}

/// A word that is written to memory shows there, and every other address shows what it did.
#[tactic(auto, using(crate::proofs::Registers::memory_shows_in_no_register), unfolding(crate::specs::Bus::change, crate::specs::Bus::see, p11_memory::specs::Memory::has_word, p11_memory::specs::Memory::word_at, p11_memory::specs::Memory::stored))]
pub fn a_word_written_to_memory_shows(turn: u64, address: u32, word: u16)
    ensures there { ShowsThere turn address word }
    ensures elsewhere { StaysElsewhere turn address word }
{}

/// Of the requests above a priority none is of a higher level than the one that is granted, and one is granted where
/// any stands.
#[tactic(auto, unfolding(crate::specs::Requests::highest_request))]
pub fn the_highest_request_is_granted(source: Source, priority: Priority)
    ensures { GrantsNoneLower source priority }
{}

/// While nothing is due, a later turn leaves the bus as it is.
#[tactic(auto, using(crate::proofs::DueLemmas::nothing_happens))]
pub fn nothing_happens_where_nothing_is_due()
    ensures { (b : BusState) (turn later : ℕ) → turn < later → is_any_due turn b ≡ false → bus_after_turn later b ≡ b }
{}

/// The next due turn is the first later turn in which a device acts, and there is none exactly where no device acts in
/// any later turn.
#[tactic(auto, using(crate::proofs::FirstTurns::none_is_none))]
pub fn the_next_due_turn_is_the_first_in_which_a_device_acts()
    ensures next { (b : BusState) (turn n : ℕ) → (next_due turn b ≡ Some n) ↔ IsNextDue turn b n }
    ensures none { (b : BusState) (turn : ℕ) → (next_due turn b ≡ None) ↔ NoneLater turn b }
{}

/// A turn in which no device acts leaves the bus as it is.
#[tactic(auto, using(crate::proofs::DueLemmas::nothing_changes))]
pub fn a_turn_in_which_no_device_acts_changes_nothing()
    ensures { (b : BusState) (turn : ℕ) → acts_in turn b ≡ false → bus_after_turn turn b ≡ b }
{}

/// The acts of a turn write no words of memory but those to which a disk read that is due stores.
#[tactic(auto, unfolding(crate::specs::Acts::bus_after_turn, crate::specs::Acts::bus_after_clock, crate::specs::Acts::bus_after_line, crate::specs::Acts::bus_after_disk))]
pub fn the_acts_write_words_of_a_disk_read_alone()
    ensures { (b : BusState) (turn : ℕ) → ChangedOnly (stores_of turn b.disk) b.memory (bus_after_turn turn b).memory }
{
    memory_stays();
    words_that_stay();
}
