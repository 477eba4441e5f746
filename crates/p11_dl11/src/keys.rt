//! The keys that wait.
ghost use Rattle.std.specs.Prelude.{◌≡◌, ◌<◌, ◌≤◌, ◌++◌, ◌∷◌, [], drop, length, slice_get, IfOk, ◌==◌};

use circular_buffer::HeapCircularBuffer;
use std::alloc::{AllocError, Allocator, Global};
use std::marker::Model;

/// So many keys may wait.
pub(crate) const MOST_KEYS: usize = 64;

/// The keys that wait, the first pressed first. They have their room from the start.
#[derive(Drop)]
pub(crate) struct Keys<A: Allocator = Global> {
    ring: HeapCircularBuffer<u8, A>,
}

impl<A: Allocator> Model for Keys<A> {
    ghost use Rattle.std.specs.Prelude.{ℕ, List, ◌≡◌, ◌≤◌, length};

    ghost Value = { List ℕ };

    ghost view = { λ k. k.ring.items };

    ghost invariant = { λ k. (k.ring.capacity ≡ 64) × (length k.ring.items ≤ 64) };
}

impl<A: Allocator> Keys<A> {
    pub(crate) fn new(alloc: A) -> Result<Self, AllocError>
        ensures { IfOk result (λ k. k ≡ []) }
    {
        let ring = HeapCircularBuffer::with_capacity(alloc, MOST_KEYS)?;
        Ok(Keys { ring })
    }

    pub(crate) fn len(&self) -> usize
        ensures len { result ≡ length self.now }
        ensures most { result ≤ 64 }
    {
        self.ring.len()
    }

    pub(crate) fn is_empty(&self) -> bool
        ensures { result ≡ (length self.now == 0) }
    {
        self.ring.is_empty()
    }

    pub(crate) fn push(&mut self, key: u8)
        requires { length self.old < 64 }
        ensures { self.new ≡ self.old ++ key ∷ [] }
    {
        let _ = self.ring.push_back(key);
    }

    pub(crate) fn pop(&mut self) -> Option<u8>
        ensures value { result ≡ slice_get self.old 0 }
        ensures rest { self.new ≡ drop 1 self.old }
    {
        self.ring.pop_front()
    }
}
