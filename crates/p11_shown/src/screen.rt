// What a terminal may be given.
ghost use Rattle.std.specs.Prelude.{◌≡◌, ◌≤◌, ◌<◌, ◌++◌, ◌∷◌, [], length, IfOk, OnOk, OnErr};
ghost use Rattle.p11_shown.specs.Screen.{fresh, taken, taken_alone, within, passed, after};

use crate::phase::{Phase, Verdict, judged};
use crate::readable::{passes_alone, show, show_all};
use arrayvec::ArrayVec;
use std::alloc::{AllocError, Allocator};
use std::marker::Model;

/// The most bytes of a sequence that passes (decimal).
const MOST_BYTES: usize = 32;

/// ESC.
const ESCAPE: u8 = 0o33;

/// The screen of a terminal, as the bytes so far have left it: a sequence that is begun is held until it is judged.
#[derive(Drop)]
pub struct Screen {
    phase: Phase,
    held: ArrayVec<u8, 32>,
}

impl Model for Screen {
    ghost use Rattle.p11_shown.specs.Screen.{ScreenState};

    ghost Value = { ScreenState };

    ghost view = { λ s. record { phase = s.phase; held = s.held.items } };
}

impl Screen {
    /// No byte has come.
    pub fn new() -> Self
        ensures { result ≡ fresh }
    {
        Screen {
            phase: Phase::Start,
            held: ArrayVec::new(),
        }
    }

    /// What a terminal is given for these bytes, behind those before.
    ///
    /// # Errors
    ///
    /// There is no memory; then nothing has changed.
    #[tactic(auto, unfolding(crate::specs::Screen::passed, crate::specs::Screen::after))]
    pub fn pass<A: Allocator>(&mut self, alloc: A, bytes: &[u8]) -> Result<Vec<u8, A>, AllocError>
        ensures ok { IfOk result (λ out. out.items ≡ passed self.old bytes.now) }
        ensures after { OnOk result (self.new ≡ after self.old bytes.now) }
        ensures err { OnErr result (self.new ≡ self.old) }
    {
        let mut out = Vec::new(alloc);
        let mut now = self.copy();
        let mut rest = bytes;
        while let [byte, behind @ ..] = rest {
            now.take(*byte, &mut out)?;
            rest = behind;
        }
        *self = now;
        Ok(out)
    }

    fn copy(&self) -> Self
        ensures { result ≡ self.now }
    {
        let mut held = ArrayVec::new();
        let _ = held.try_extend_from_slice(self.held.as_slice());
        Screen {
            phase: self.phase,
            held,
        }
    }

    /// Takes a byte, and adds what passes.
    #[tactic(auto, unfolding(crate::specs::Screen::taken))]
    fn take<A: Allocator>(&mut self, byte: u8, out: &mut Vec<u8, A>) -> Result<(), AllocError>
        ensures state { OnOk result (self.new ≡ (taken self.old byte).0) }
        ensures out { OnOk result (out.new.items ≡ out.old.items ++ (taken self.old byte).1) }
    {
        let verdict = self.verdict(byte);
        match verdict {
            Verdict::Goes(phase) => {
                self.hold(phase, byte);
                Ok(())
            }
            Verdict::Whole => {
                out.extend_from_slice(self.held.as_slice())?;
                out.extend_from_slice(&[byte])?;
                self.begin();
                Ok(())
            }
            Verdict::Alone => {
                show_all(out, self.held.as_slice())?;
                self.begin();
                self.take_alone(byte, out)
            }
        }
    }

    /// What a byte is behind those that are held. A sequence that has the most bytes doesn't go on.
    fn verdict(&self, byte: u8) -> Verdict
        ensures value { result ≡ within self.now byte }
        ensures room { (phase : Phase) → result ≡ Verdict.Goes phase → length self.now.held < 32 }
    {
        if self.held.len() < MOST_BYTES {
            judged(self.phase, byte)
        } else {
            Verdict::Alone
        }
    }

    /// Takes a byte that is of no sequence, or begins one.
    fn take_alone<A: Allocator>(&mut self, byte: u8, out: &mut Vec<u8, A>) -> Result<(), AllocError>
        requires { self.old ≡ fresh }
        ensures state { OnOk result (self.new ≡ (taken_alone byte).0) }
        ensures out { OnOk result (out.new.items ≡ out.old.items ++ (taken_alone byte).1) }
    {
        if byte == ESCAPE {
            self.hold(Phase::Escape, byte);
            return Ok(());
        }
        if passes_alone(byte) {
            return out.extend_from_slice(&[byte]);
        }
        show(out, byte)
    }

    /// Holds a byte behind those that are held.
    fn hold(&mut self, phase: Phase, byte: u8)
        requires { length self.old.held < 32 }
        ensures { self.new ≡ record { phase = phase; held = self.old.held ++ byte ∷ [] } }
    {
        self.held.push(byte);
        self.phase = phase;
    }

    /// Nothing is held any more.
    fn begin(&mut self)
        ensures { self.new ≡ fresh }
    {
        self.held.clear();
        self.phase = Phase::Start;
    }
}
