// Bytes that are added at the end and taken from the front.
ghost use Rattle.std.specs.Prelude.{◌≡◌, ◌++◌, ◌+◌, ◌≤◌, ◌<◌, [], ℕ, List, length, drop, take, nat_lt, slice_get, OnOk, OnErr};
ghost use Rattle.p11_lines.specs.AnswerText.{text_of};
ghost use Rattle.p11_dialogue.specs.Said.{Says};

use p11_lines::{Answer, NoMemory, StdWriter, put_answer};
use std::alloc::Allocator;
use std::marker::Model;

/// Bytes that are added at the end and taken from the front. A contract sees those that are there.
#[derive(Drop)]
pub struct Buffer<A: Allocator> {
    writer: StdWriter<Vec<u8, A>>,
    taken: usize,
}

impl<A: Allocator> Model for Buffer<A> {
    ghost use Rattle.std.specs.Prelude.{ℕ, List, ◌≤◌, length, drop};

    ghost Value = { List ℕ };

    ghost view = { λ b. drop b.taken b.writer.inner.items };

    ghost invariant = { λ b. b.taken ≤ length b.writer.inner.items };
}

impl<A: Allocator> Buffer<A> {
    pub fn new(alloc: A) -> Self
        ensures { result ≡ [] }
    {
        Buffer::of(Vec::new(alloc))
    }

    /// These bytes.
    pub fn of(bytes: Vec<u8, A>) -> Self
        ensures { result ≡ bytes.items }
    {
        Buffer {
            writer: StdWriter { inner: bytes },
            taken: 0,
        }
    }

    pub fn as_slice(&self) -> &[u8]
        ensures { result.now ≡ self.now }
    {
        &self.writer.inner.as_slice()[self.taken..]
    }

    pub fn len(&self) -> usize
        ensures { result ≡ length self.now }
    {
        self.writer.inner.len() - self.taken
    }

    /// Whether a byte is there.
    pub fn has_some(&self) -> bool
        ensures { result ≡ nat_lt 0 (length self.now) }
    {
        self.len() > 0
    }

    /// The first byte.
    pub fn first(&self) -> Option<u8>
        ensures { result ≡ slice_get self.now 0 }
    {
        match self.as_slice().get(0) {
            Some(byte) => Some(*byte),
            None => None,
        }
    }

    /// Adds bytes, or none where there is no memory.
    pub fn push_all(&mut self, bytes: &[u8]) -> Result<(), NoMemory>
        ensures ok { OnOk result (self.new ≡ self.old ++ bytes.now) }
        ensures err { OnErr result (self.new ≡ self.old) }
    {
        self.writer.inner.extend_from_slice(bytes)?;
        Ok(())
    }

    /// Says bytes, or nothing where there is no memory.
    pub fn say(&mut self, bytes: &[u8])
        ensures { Says self.old self.new }
    {
        let _ = self.push_all(bytes);
    }

    /// Adds the text of an answer, or nothing where there is no memory.
    pub fn put(&mut self, answer: &Answer<A>) -> Result<(), NoMemory>
        ensures ok { OnOk result (self.new ≡ self.old ++ text_of answer.now) }
        ensures err { OnErr result (self.new ≡ self.old) }
    {
        let len = self.writer.inner.len();
        if put_answer(&mut self.writer, answer).is_err() {
            self.writer.inner.truncate(len);
            return Err(NoMemory);
        }
        Ok(())
    }

    /// Takes so many bytes from the front.
    pub fn drop_front(&mut self, count: usize)
        requires { count ≤ length self.old }
        ensures { self.new ≡ drop count self.old }
    {
        self.taken += count;
        if self.taken == self.writer.inner.len() {
            self.writer.inner.clear();
            self.taken = 0;
        }
    }

    /// Leaves the first bytes alone.
    pub fn cut(&mut self, len: usize)
        requires { len ≤ length self.old }
        ensures { self.new ≡ take len self.old }
    {
        self.writer.inner.truncate(self.taken + len);
    }

    /// Takes one byte out.
    #[tactic(auto, using(crate::proofs::Removing::drop_removed))]
    pub fn remove(&mut self, place: usize)
        requires { place < length self.old }
        ensures { self.new ≡ take place self.old ++ drop (place + 1) self.old }
    {
        let _ = self.writer.inner.remove(self.taken + place);
    }
}
