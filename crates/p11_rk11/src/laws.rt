//! What the definitions of the controller say together, in every state: each is a function that does nothing.
ghost use Rattle.std.specs.Prelude.{◌≡◌, ◌≢◌, ℕ, ◌+◌, ◌<◌, ◌≤◌, true, false, List, [], length, slice_index, All};
ghost use Rattle.p11_overlay.specs.Drive.{Contents};
ghost use Rattle.p11_rk11.specs.declared.registers.Registers.{Registers};
ghost use Rattle.p11_rk11.specs.Acts.{disk_after_turn, stores_of};
ghost use Rattle.p11_rk11.specs.Functions.{is_read};
ghost use Rattle.p11_rk11.specs.Laws.Registers.{TransferHasPlace, ShowsItsBits};
ghost use Rattle.p11_memory.specs.Memory.{Words, has_word, word_at};
ghost use Rattle.p11_rk11.specs.Place.{Place, sector_number, next_place};
ghost use Rattle.p11_rk11.specs.Calls.Due.{disk_due};
ghost use Rattle.p11_rk11.specs.Calls.Places.{is_on_disk};
ghost use Rattle.p11_rk11.specs.Laws.Places.{place_of_number};
ghost use Rattle.p11_rk11.specs.Sector.{bytes_of_words, words_of_sector};
ghost use Rattle.p11_rk11.specs.Starts.{disk_after_write};
ghost use Rattle.p11_rk11.specs.declared.register.Register.{Register};
ghost use Rattle.p11_rk11.specs.State.{Rk11State, drive_count, disk_after_init, disk_after_mount, disk_after_service, disk_after_unmount, is_busy, new_disk};
ghost use Rattle.p11_rk11.specs.Laws.DueTurns.{IsBefore, IsNotAfter};

use crate::controller::DRIVES;

/// There are eight drives, as many as the definitions have.
pub fn number_of_drives()
    ensures { DRIVES ≡ drive_count }
{}

/// INIT twice is INIT once, in every state of the controller.
pub fn init_twice_is_init_once()
    ensures { (s : Rk11State) → disk_after_init (disk_after_init s) ≡ disk_after_init s }
{}

/// The acts of a turn that comes before every due turn change nothing. So due turns stay until one of them comes,
/// unless something else happens.
pub fn nothing_happens_before_due()
    ensures { (s : Rk11State) (memory : Words) (turn : ℕ) → IsBefore turn (disk_due s) → disk_after_turn turn s memory
        ≡ (s, memory) }
{}

/// After its acts in a turn the controller is due in later turns alone, if it was not due before that turn.
pub fn due_turns_are_later()
    ensures { (s : Rk11State) (memory : Words) (turn : ℕ) → IsNotAfter turn (disk_due s)
        → IsBefore turn (disk_due (disk_after_turn turn s memory).0) }
{}

/// The acts of a turn leave which addresses are memory.
pub fn memory_stays()
    ensures { (s : Rk11State) (memory : Words) (turn address : ℕ)
        → has_word (disk_after_turn turn s memory).1 address ≡ has_word memory address }
{}

/// The acts of a turn change at most 256 words, those of a due read's sector: every other word of memory stays.
pub fn words_that_stay()
    ensures others { (s : Rk11State) (memory : Words) (turn address : ℕ) → has_word memory address ≡ true
        → ((k : ℕ) → k < length (stores_of turn s) → slice_index (stores_of turn s) k ≢ address)
        → word_at (disk_after_turn turn s memory).1 address ≡ word_at memory address }
    ensures count { (s : Rk11State) (turn : ℕ) → length (stores_of turn s) ≤ 256 }
    ensures reads { (s : Rk11State) (turn : ℕ) → is_read s.registers.function ≡ false → stores_of turn s ≡ [] }
{}

/// A sector made of 256 words gives the words back.
pub fn words_of_a_written_sector()
    ensures { (words : List ℕ) → length words ≡ 256 → All (λ word. word < 0o200000) words
        → words_of_sector (bytes_of_words words) ≡ words }
{}

/// A sector's number and its place are each other's inverse, and the next place has the next number.
pub fn places_and_numbers()
    ensures place { (p : Place) → p.surface < 2 → is_on_disk p ≡ true → place_of_number p.drive (sector_number p) ≡ p }
    ensures number { (drive n : ℕ) → sector_number (place_of_number drive n) ≡ n }
    ensures on_disk { (drive n : ℕ) → n < 4872 → is_on_disk (place_of_number drive n) ≡ true }
    ensures next { (p : Place) → p.surface < 2 → is_on_disk p ≡ true → sector_number (next_place p)
        ≡ sector_number p + 1 }
{}

/// RKCS shows exactly its bits, each at its place.
pub fn control_status_shows_its_bits()
    ensures { (r : Registers) → r.bus_address < 0o1000000 → ShowsItsBits r }
{}

/// In every state that a controller comes to, a running transfer is on a mounted drive and at a place on its pack: it
/// is so at first, and each event keeps it, an unmount of a drive that isn't busy too.
pub fn running_transfers_have_a_place()
    ensures new { TransferHasPlace new_disk }
    ensures write { (s : Rk11State) (turn : ℕ) (register : Register) (word : ℕ)
        → TransferHasPlace s → TransferHasPlace (disk_after_write turn register word s) }
    ensures acts { (s : Rk11State) (memory : Words) (turn : ℕ)
        → TransferHasPlace s → TransferHasPlace (disk_after_turn turn s memory).0 }
    ensures init { (s : Rk11State) → TransferHasPlace (disk_after_init s) }
    ensures service { (s : Rk11State) → TransferHasPlace s → TransferHasPlace (disk_after_service s) }
    ensures mount { (s : Rk11State) (n : ℕ) (contents : Contents)
        → TransferHasPlace s → TransferHasPlace (disk_after_mount n contents s) }
    ensures unmount { (s : Rk11State) (n : ℕ) → is_busy n s ≡ false
        → TransferHasPlace s → TransferHasPlace (disk_after_unmount n s) }
{}
