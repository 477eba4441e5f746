//! The words of one sector: between its bytes and memory.
ghost use Rattle.std.specs.Prelude.{◌≡◌, ℕ, ◌+◌, ◌*◌, ◌%◌, ◌<◌, ◌≤◌, length, true, false, not, nat_eq, take, map, slice_index, []};
ghost use Rattle.std.specs.List.{range_with_len};
ghost use Rattle.std.specs.Cmp.Lexicographic.{pointwise};
ghost use Rattle.p11_rk11.specs.Address.{word_address};
ghost use Rattle.p11_memory.specs.Memory.{all_held, all_stored};
ghost use Rattle.p11_rk11.specs.Sector.{words_of_sector, bytes_of_words, words_from, sector_from};

use crate::address::BusAddress;
use byteorder::{ByteOrder, LittleEndian};
use p11_memory::WordMemory;
use std::marker::Model;

/// The words in the bytes of a sector.
pub(crate) fn words_of(bytes: &[u8]) -> [u16; 256]
    requires { length bytes.now ≡ 512 }
    ensures { result ≡ words_of_sector bytes.now }
{
    let mut words = [0; 256];
    LittleEndian::read_u16_into(bytes, &mut words);
    words
}

/// The bytes of a sector's words.
#[tactic(auto, unfolding(crate::specs::Sector::bytes_of_words))]
pub(crate) fn bytes_of(words: &[u16; 256]) -> [u8; 512]
    ensures { result ≡ bytes_of_words words.now }
{
    let mut bytes = [0; 512];
    LittleEndian::write_u16_into(words, &mut bytes);
    bytes
}

/// The memory of one sector's words.
#[derive(Clone, Copy)]
pub(crate) struct Span {
    pub(crate) start: BusAddress,
    /// Whether all words have the first word's address.
    pub(crate) stays: bool,
    pub(crate) count: u32,
}

/// The addresses to which a sector's words are stored, at most 256, in the order of the words.
#[derive(Drop)]
pub struct Stores {
    span: Span,
}

impl Model for Stores {
    ghost use Rattle.std.specs.Prelude.{ℕ, ◌≤◌, List, map};
    ghost use Rattle.std.specs.List.{range_with_len};
    ghost use Rattle.p11_rk11.specs.Address.{word_address};

    ghost Value = { List ℕ };

    ghost view = { λ s. map (word_address s.span.start s.span.stays) (range_with_len 0 s.span.count) };

    ghost invariant = { λ s. s.span.count ≤ 256 };
}

impl Stores {
    pub(crate) fn new(span: Span) -> Stores
        requires { span.count ≤ 256 }
        ensures { result ≡ map (word_address span.start span.stays) (range_with_len 0 span.count) }
    {
        Stores { span }
    }

    pub(crate) fn none() -> Stores
        ensures { result ≡ [] }
    {
        Stores {
            span: Span {
                start: BusAddress::zero(),
                stays: false,
                count: 0,
            },
        }
    }

    /// How many addresses they are, at most 256; 0 where nothing is stored.
    pub fn len(&self) -> u32
        ensures value { result ≡ length self.now }
        ensures bound { result ≤ 256 }
    {
        self.span.count
    }

    /// The bus address, of 18 bits, to which word `k` is stored, counted from 0.
    pub fn address(&self, k: u32) -> u32
        requires { k < length self.now }
        ensures { result ≡ slice_index self.now k }
    {
        self.span.start.of_word(self.span.stays, k)
    }
}

impl Span {
    /// Whether the words have one address after another, with none past 777776.
    fn is_run(&self) -> bool
        requires { self.now.count ≤ 256 }
        ensures even { result ≡ true → self.now.start % 2 ≡ 0 }
        ensures stays { result ≡ true → self.now.stays ≡ false }
        ensures ends { result ≡ true → self.now.start + 2 * self.now.count ≤ 0o1000000 }
    {
        !self.stays && self.start.all() + 2 * self.count <= 0o1000000
    }

    /// Whether every address is memory.
    pub(crate) fn is_held<M: WordMemory>(self, memory: &M) -> bool
        requires some { 0 < self.count }
        requires count { self.count ≤ 256 }
        ensures { result ≡ all_held (word_address self.start self.stays) self.count (M.words memory.now) }
    {
        if self.is_run() {
            memory.holds(self.start.of_word(self.stays, self.count - 1))
        } else {
            self.is_each_held(memory)
        }
    }

    /// Whether every address is memory, by one after another.
    fn is_each_held<M: WordMemory>(self, memory: &M) -> bool
        requires { self.count ≤ 256 }
        ensures { result ≡ all_held (word_address self.start self.stays) self.count (M.words memory.now) }
    {
        for k in 0..self.count {
            if !memory.holds(self.start.of_word(self.stays, k)) {
                return false;
            }
        }
        true
    }

    /// A sector's words: those of memory, and zeros behind them.
    pub(crate) fn load<M: WordMemory>(self, memory: &M) -> [u16; 256]
        requires some { 0 < self.count }
        requires count { self.count ≤ 256 }
        requires held { all_held (word_address self.start self.stays) self.count (M.words memory.now) ≡ true }
        ensures { result ≡ sector_from (word_address self.start self.stays) self.count (M.words memory.now) }
    {
        if self.is_run() {
            self.load_run(memory)
        } else {
            self.load_each(memory)
        }
    }

    /// A sector's words where the addresses are a run.
    fn load_run<M: WordMemory>(self, memory: &M) -> [u16; 256]
        requires some { 0 < self.count }
        requires count { self.count ≤ 256 }
        requires held { all_held (word_address self.start self.stays) self.count (M.words memory.now) ≡ true }
        requires stays { self.stays ≡ false }
        requires ends { self.start + 2 * self.count ≤ 0o1000000 }
        ensures { result ≡ sector_from (word_address self.start self.stays) self.count (M.words memory.now) }
    {
        let count = self.count as usize;
        let mut words = [0; 256];
        words[..count].copy_from_slice(memory.run(self.start.all(), count));
        words
    }

    /// A sector's words, one after another.
    fn load_each<M: WordMemory>(self, memory: &M) -> [u16; 256]
        requires count { self.count ≤ 256 }
        requires held { all_held (word_address self.start self.stays) self.count (M.words memory.now) ≡ true }
        ensures { result ≡ sector_from (word_address self.start self.stays) self.count (M.words memory.now) }
    {
        let mut words = [0; 256];
        for k in 0..self.count {
            words[k as usize] = memory.load(self.start.of_word(self.stays, k));
        }
        words
    }

    /// Whether memory's words are other than a sector's first words.
    pub(crate) fn differs<M: WordMemory>(self, memory: &M, words: &[u16; 256]) -> bool
        requires some { 0 < self.count }
        requires count { self.count ≤ 256 }
        requires held { all_held (word_address self.start self.stays) self.count (M.words memory.now) ≡ true }
        ensures { result ≡ not (pointwise nat_eq
            (words_from (word_address self.start self.stays) self.count (M.words memory.now))
            (take self.count words.now)) }
    {
        let count = self.count as usize;
        let loaded = self.load(memory);
        loaded[..count] != words[..count]
    }

    /// Stores a sector's first words.
    pub(crate) fn store<M: WordMemory>(self, memory: &mut M, words: &[u16; 256])
        requires some { 0 < self.count }
        requires count { self.count ≤ 256 }
        requires held { all_held (word_address self.start self.stays) self.count (M.words memory.old) ≡ true }
        requires room { self.count ≤ M.room memory.old }
        ensures words { M.words memory.new
            ≡ all_stored (word_address self.start self.stays) words.now self.count (M.words memory.old) }
        ensures room { M.room memory.old ≤ M.room memory.new + self.count }
    {
        if self.is_run() {
            self.store_run(memory, words);
        } else {
            self.store_each(memory, words);
        }
    }

    /// Stores a sector's first words where the addresses are a run.
    fn store_run<M: WordMemory>(self, memory: &mut M, words: &[u16; 256])
        requires some { 0 < self.count }
        requires count { self.count ≤ 256 }
        requires held { all_held (word_address self.start self.stays) self.count (M.words memory.old) ≡ true }
        requires room { self.count ≤ M.room memory.old }
        requires stays { self.stays ≡ false }
        requires ends { self.start + 2 * self.count ≤ 0o1000000 }
        ensures words { M.words memory.new
            ≡ all_stored (word_address self.start self.stays) words.now self.count (M.words memory.old) }
        ensures room { M.room memory.old ≤ M.room memory.new + self.count }
    {
        memory.store_run(self.start.all(), &words[..self.count as usize]);
    }

    /// Stores a sector's first words, one after another.
    fn store_each<M: WordMemory>(self, memory: &mut M, words: &[u16; 256])
        requires count { self.count ≤ 256 }
        requires held { all_held (word_address self.start self.stays) self.count (M.words memory.old) ≡ true }
        requires room { self.count ≤ M.room memory.old }
        ensures words { M.words memory.new
            ≡ all_stored (word_address self.start self.stays) words.now self.count (M.words memory.old) }
        ensures room { M.room memory.old ≤ M.room memory.new + self.count }
    {
        for k in 0..self.count {
            memory.store(self.start.of_word(self.stays, k), words[k as usize]);
        }
    }
}
