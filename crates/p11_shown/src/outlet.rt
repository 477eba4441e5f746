// Where bytes go that a person reads.
ghost use Rattle.std.specs.Prelude.{◌≡◌, OnOk, OnErr, map, if◌then◌else◌};
ghost use Rattle.std.specs.Io.KnownBytes.{Appends};
ghost use Rattle.p11_shown.specs.Bits.{without_parity};
ghost use Rattle.p11_shown.specs.Outlets.{AppendsFront, let_through};
ghost use Rattle.p11_shown.specs.Screen.{after, fresh};

use crate::bits::{Bits, all_without_parity};
use crate::screen::Screen;
use std::alloc::Allocator;
use std::io::Write;

/// Why an outlet couldn't write.
#[derive(Clone, Copy)]
pub enum OutletFault {
    /// There was no memory to judge the bytes.
    NoMemory,
    /// The writer failed, or took nothing.
    Writing,
}

/// A writer behind which a terminal may be. Only what passes to a screen gets there, unless all is to.
#[derive(Drop)]
pub struct Outlet<W: Write> {
    writer: W,
    screen: Screen,
    is_raw: bool,
}

impl<W: Write> Outlet<W> {
    /// No byte has come. All bytes pass if it is raw.
    pub fn new(writer: W, is_raw: bool) -> Self
        ensures writer { W.contents result.writer ≡ W.contents writer }
        ensures screen { result.screen ≡ fresh }
        ensures raw { result.is_raw ≡ is_raw }
    {
        Outlet {
            writer,
            screen: Screen::new(),
            is_raw,
        }
    }

    /// Writes what passes of these bytes, and nothing else.
    ///
    /// # Errors
    ///
    /// The writer failed or took nothing, or there was no memory. A front of what passes was written, perhaps nothing.
    pub fn write<A: Allocator>(&mut self, alloc: A, bytes: &[u8]) -> Result<(), OutletFault>
        ensures ok { OnOk result (Appends (W.contents self.old.writer) (W.contents self.new.writer)
            (let_through self.old.is_raw self.old.screen bytes.now)) }
        ensures err { OnErr result (AppendsFront (W.contents self.old.writer) (W.contents self.new.writer)
            (let_through self.old.is_raw self.old.screen bytes.now)) }
        ensures screen { OnOk result (self.new.screen
            ≡ (if self.old.is_raw then self.old.screen else after self.old.screen bytes.now)) }
        ensures raw { self.new.is_raw ≡ self.old.is_raw }
    {
        if self.is_raw {
            return write_whole(&mut self.writer, bytes);
        }
        match self.screen.pass(alloc, bytes) {
            Ok(passed) => write_whole(&mut self.writer, passed.as_slice()),
            Err(_) => Err(OutletFault::NoMemory),
        }
    }

    /// Writes what passes of bytes that the machine has typed, to a terminal of so many bits. Where all bytes pass they have their
    /// parity still if it has eight.
    ///
    /// # Errors
    ///
    /// The writer failed or took nothing, or there was no memory. A front of what passes was written, perhaps nothing.
    pub fn write_typed<A: Allocator + Copy>(
        &mut self,
        alloc: A,
        bits: Bits,
        bytes: &[u8],
    ) -> Result<(), OutletFault>
        ensures ok { OnOk result (Appends (W.contents self.old.writer) (W.contents self.new.writer)
            (let_through self.old.is_raw self.old.screen (map (without_parity bits) bytes.now))) }
        ensures err { OnErr result (AppendsFront (W.contents self.old.writer) (W.contents self.new.writer)
            (let_through self.old.is_raw self.old.screen (map (without_parity bits) bytes.now))) }
        ensures screen { OnOk result (self.new.screen
            ≡ (if self.old.is_raw then self.old.screen else after self.old.screen (map (without_parity bits) bytes.now))) }
        ensures raw { self.new.is_raw ≡ self.old.is_raw }
    {
        let Ok(seen) = all_without_parity(alloc, bits, bytes) else {
            return Err(OutletFault::NoMemory);
        };
        self.write(alloc, seen.as_slice())
    }
}

/// Writes all of some bytes, by one call of the writer after the other. A call that fails isn't tried again.
#[tactic(auto, using(crate::proofs::Writing::none_written, crate::proofs::Writing::all_written, crate::proofs::Writing::front_written))]
fn write_whole<W: Write>(writer: &mut W, bytes: &[u8]) -> Result<(), OutletFault>
    ensures ok { OnOk result (Appends (W.contents writer.old) (W.contents writer.new) bytes.now) }
    ensures err { OnErr result (AppendsFront (W.contents writer.old) (W.contents writer.new) bytes.now) }
{
    let mut rest = bytes;
    while !rest.is_empty() {
        match writer.write(rest) {
            Ok(0) => return Err(OutletFault::Writing),
            Ok(count) => rest = &rest[count..],
            Err(_) => return Err(OutletFault::Writing),
        }
    }
    Ok(())
}
