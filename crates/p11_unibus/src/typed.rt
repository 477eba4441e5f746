//! The characters that were typed and not yet taken.
ghost use Rattle.std.specs.Prelude.{◌≡◌, ◌<◌, [], true, false, is_some, OnOk, IsOk};
ghost use Rattle.p11_unibus.specs.Acts.{with_typed};

use std::alloc::{AllocError, Allocator, Global};
use std::marker::Model;
use std::mem;

/// The characters that were typed and not yet taken. A contract sees them, and for how many more there is room.
#[derive(Drop)]
pub(crate) struct Typed<A: Allocator = Global> {
    bytes: Vec<u8, A>,
}

impl<A: Allocator> Model for Typed<A> {
    ghost use Rattle.std.specs.Prelude.{◌-◌};
    ghost use Rattle.std.specs.Vec.{vec_capacity, vec_len};
    ghost use Rattle.p11_unibus.specs.Kept.Prepared.{TypedView};

    ghost Value = { TypedView };

    ghost view = { λ t. record { bytes = t.bytes.items; room = vec_capacity t.bytes - vec_len t.bytes } };
}

impl<A: Allocator + Copy> Typed<A> {
    pub(crate) fn new(alloc: A) -> Self
        ensures { result.bytes ≡ [] }
    {
        Typed {
            bytes: Vec::new(alloc),
        }
    }

    /// Gives them up, and leaves an empty list that holds no memory.
    pub(crate) fn take(&mut self) -> Vec<u8, A>
        ensures bytes { result.items ≡ self.old.bytes }
        ensures none { self.new.bytes ≡ [] }
        ensures room { self.new.room ≡ 0 }
    {
        let alloc = *self.bytes.allocator();
        mem::replace(&mut self.bytes, Vec::new(alloc))
    }
}

impl<A: Allocator> Typed<A> {
    /// Finds room for one more, where it is needed.
    pub(crate) fn prepare(&mut self, needed: bool) -> Result<(), AllocError>
        ensures bytes { self.new.bytes ≡ self.old.bytes }
        ensures ok { OnOk result (needed ≡ true → 0 < self.new.room) }
        ensures needless { needed ≡ false → IsOk result }
        ensures again { 0 < self.old.room → IsOk result }
    {
        if needed {
            self.bytes.reserve(1)
        } else {
            Ok(())
        }
    }

    /// One more, if there is one.
    #[tactic(auto, unfolding(crate::specs::Acts::with_typed))]
    pub(crate) fn put(&mut self, character: Option<u8>)
        requires { is_some character ≡ true → 0 < self.old.room }
        ensures { self.new.bytes ≡ with_typed self.old.bytes character }
    {
        if let Some(character) = character {
            let _ = self.bytes.push(character);
        }
    }
}
