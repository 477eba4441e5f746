//! The drives by number.
ghost use Rattle.std.specs.Prelude.{◌≡◌, ◌<◌, None, replicate, slice_index_or, slice_set};
ghost use Rattle.p11_rk11.specs.State.{drive_count};

use crate::mounted::Mounted;
use std::alloc::{Allocator, Global};
use std::marker::Model;

/// Ends what was on a drive.
fn end<A: Allocator>(_bay: Option<Mounted<A>>) {}

/// Leaves a mounted pack, or nothing, in place of what was on a drive.
fn leave<A: Allocator>(place: &mut Option<Mounted<A>>, bay: Option<Mounted<A>>)
    ensures { place.new ≡ bay }
{
    *place = bay;
}

/// The drives, each empty or with a pack mounted.
pub(crate) struct Drives<A: Allocator = Global> {
    first: Option<Mounted<A>>,
    second: Option<Mounted<A>>,
    third: Option<Mounted<A>>,
    fourth: Option<Mounted<A>>,
    fifth: Option<Mounted<A>>,
    sixth: Option<Mounted<A>>,
    seventh: Option<Mounted<A>>,
    eighth: Option<Mounted<A>>,
}

// Written out, so that a value that ends is one call in whatever function holds it, and not a drop of each field there.
impl<A: Allocator> Drop for Drives<A> {
    fn drop(self) {
        let Drives {
            first,
            second,
            third,
            fourth,
            fifth,
            sixth,
            seventh,
            eighth,
        } = self;
        end(first);
        end(second);
        end(third);
        end(fourth);
        end(fifth);
        end(sixth);
        end(seventh);
        end(eighth);
    }
}

impl<A: Allocator> Model for Drives<A> {
    ghost use Rattle.std.specs.Prelude.{List, Option, ◌∷◌, []};
    ghost use Rattle.p11_rk11.specs.Kept.View.{MountedState};

    ghost Value = { List (Option MountedState) };

    ghost view = { λ d. d.first ∷ d.second ∷ d.third ∷ d.fourth ∷ d.fifth ∷ d.sixth ∷ d.seventh ∷ d.eighth ∷ [] };
}

impl<A: Allocator> Drives<A> {
    /// All empty.
    pub(crate) fn new() -> Self
        ensures { result ≡ replicate drive_count None }
    {
        Drives {
            first: None,
            second: None,
            third: None,
            fourth: None,
            fifth: None,
            sixth: None,
            seventh: None,
            eighth: None,
        }
    }

    /// What is on drive `n`.
    pub(crate) fn at(&self, n: usize) -> &Option<Mounted<A>>
        requires { n < drive_count }
        ensures { result.now ≡ slice_index_or self.now n None }
    {
        match n {
            0 => &self.first,
            1 => &self.second,
            2 => &self.third,
            3 => &self.fourth,
            4 => &self.fifth,
            5 => &self.sixth,
            6 => &self.seventh,
            _ => &self.eighth,
        }
    }

    /// Takes what is on drive `n`.
    pub(crate) fn take(&mut self, n: usize) -> Option<Mounted<A>>
        requires { n < drive_count }
        ensures taken { result ≡ slice_index_or self.old n None }
        ensures rest { self.new ≡ slice_set self.old n None }
    {
        match n {
            0 => self.first.take(),
            1 => self.second.take(),
            2 => self.third.take(),
            3 => self.fourth.take(),
            4 => self.fifth.take(),
            5 => self.sixth.take(),
            6 => self.seventh.take(),
            _ => self.eighth.take(),
        }
    }

    /// Puts a mounted pack, or nothing, on drive `n`.
    pub(crate) fn put(&mut self, n: usize, bay: Option<Mounted<A>>)
        requires { n < drive_count }
        ensures { self.new ≡ slice_set self.old n bay }
    {
        match n {
            0 => leave(&mut self.first, bay),
            1 => leave(&mut self.second, bay),
            2 => leave(&mut self.third, bay),
            3 => leave(&mut self.fourth, bay),
            4 => leave(&mut self.fifth, bay),
            5 => leave(&mut self.sixth, bay),
            6 => leave(&mut self.seventh, bay),
            _ => leave(&mut self.eighth, bay),
        }
    }
}
