//! The console line: its receiver and its transmitter.
ghost use Rattle.std.specs.Prelude.{◌≡◌, ◌≤◌, ◌<◌, ◌^◌, ◌+◌, length, IfOk, IsOk, is_some};
ghost use Rattle.p11_dl11.specs.LineEvents.{line_after_init, line_after_key, line_after_read, line_after_service, line_after_turn, line_after_write, line_word, new_line};
ghost use Rattle.p11_dl11.specs.Calls.Requests.{line_requests};
ghost use Rattle.p11_dl11.specs.ReceiverEvents.{receiver_due, receiver_room};
ghost use Rattle.p11_dl11.specs.Calls.Taking.{takes_from};
ghost use Rattle.p11_dl11.specs.TransmitterEvents.{transmitter_due, typed_in};

use crate::receiver::Receiver;
use crate::register::{Register, Section};
use crate::status::enable_in;
use crate::transmitter::Transmitter;
use std::alloc::{AllocError, Allocator, Global};
use std::marker::Model;
use thiserror::Error;

/// The refusal of a key that is pressed while 64 keys wait.
#[derive(Clone, Copy, Debug, PartialEq, Eq, Error)]
#[error("64 keys wait")]
pub struct KeysFull;

/// A DL11 with a terminal: keys that are pressed wait until a program reads them, and characters that a program writes
/// are typed. Up to 64 keys wait, and a character takes 64 turns on the line in either direction. Turns are counted
/// from the time when the machine was made, up to 2^62.
#[derive(Drop)]
pub struct Dl11<A: Allocator = Global> {
    receiver: Receiver<A>,
    transmitter: Transmitter,
}

impl<A: Allocator> Model for Dl11<A> {
    ghost use Rattle.p11_dl11.specs.LineState.{LineState};

    ghost Value = { LineState };

    ghost view = { λ l. record { receiver = l.receiver; transmitter = l.transmitter } };
}

impl<A: Allocator> Dl11<A> {
    /// A new machine's console line. It takes the memory for the keys, and no other call takes any.
    #[tactic(auto, unfolding(crate::specs::LineEvents::new_line))]
    pub fn new(alloc: A) -> Result<Self, AllocError>
        ensures { IfOk result (λ l. l ≡ new_line) }
    {
        Ok(Dl11 {
            receiver: Receiver::new(alloc)?,
            transmitter: Transmitter::new(),
        })
    }

    /// The operator presses a key. With 64 keys waiting it is refused, and nothing changes.
    #[tactic(auto, unfolding(crate::specs::LineEvents::line_after_key))]
    pub fn key(&mut self, key: u8) -> Result<(), KeysFull>
        ensures outcome { line_after_key key self.old ≡ (self.new, result) }
        ensures succeeds { length self.old.receiver.keys < 64 → IsOk result }
    {
        if self.room() == 0 {
            return Err(KeysFull);
        }
        self.receiver.key(key);
        Ok(())
    }

    /// How many more keys may wait, 0 to 64.
    pub fn room(&self) -> u32
        ensures room { result ≡ receiver_room self.now.receiver }
        ensures most { result + length self.now.receiver.keys ≡ 64 }
    {
        self.receiver.room()
    }

    /// The word that `read` would give, without its side effect.
    #[tactic(auto, unfolding(crate::specs::LineEvents::line_word))]
    pub fn peek(&self, register: Register) -> u16
        ensures { result ≡ line_word register self.now }
    {
        match register {
            Register::ReceiverStatus => self.receiver.status(),
            Register::ReceiverBuffer => self.receiver.character(),
            Register::TransmitterStatus => self.transmitter.status(),
            Register::TransmitterBuffer => 0,
        }
    }

    /// Reads a register. Reading the receiver buffer clears done and drops the receiver's request.
    #[tactic(auto, unfolding(crate::specs::LineEvents::line_after_read))]
    pub fn read(&mut self, register: Register) -> u16
        ensures word { result ≡ line_word register self.old }
        ensures state { self.new ≡ line_after_read register self.old }
    {
        let word = self.peek(register);
        if let Register::ReceiverBuffer = register {
            self.receiver.read_character();
        }
        word
    }

    /// Writes a word to a register in this turn. A status register takes bit 6, the transmitter buffer bits 7:0, and the
    /// receiver buffer nothing.
    #[tactic(auto, unfolding(crate::specs::LineEvents::line_after_write))]
    pub fn write(&mut self, turn: u64, register: Register, word: u16)
        requires { turn ≤ 2 ^ 62 }
        ensures { self.new ≡ line_after_write turn register word self.old }
    {
        match register {
            Register::ReceiverStatus => self.receiver.set_enable(enable_in(word)),
            Register::ReceiverBuffer => {}
            Register::TransmitterStatus => self.transmitter.set_enable(enable_in(word)),
            Register::TransmitterBuffer => self.transmitter.send(turn, (word & 0o377) as u8),
        }
    }

    /// The line in this turn: the receiver may take a key, and the character that is due is typed.
    #[tactic(auto, unfolding(crate::specs::LineEvents::line_after_turn))]
    pub fn act(&mut self, turn: u64) -> Option<u8>
        requires { turn ≤ 2 ^ 62 }
        ensures state { self.new ≡ line_after_turn turn self.old }
        ensures typed { result ≡ typed_in turn self.old.transmitter }
    {
        self.receiver.act(turn);
        self.transmitter.act(turn)
    }

    /// Between this turn and the next: the turns in which the receiver and the transmitter act if nothing else happens.
    pub fn due(&self, turn: u64) -> (Option<u64>, Option<u64>)
        requires { turn ≤ 2 ^ 62 }
        ensures { result ≡ (receiver_due turn self.now.receiver, transmitter_due self.now.transmitter) }
    {
        (self.receiver.due(turn), self.transmitter.due())
    }

    /// The turn from which the receiver takes a key, which may have passed, and that in which the transmitter types a
    /// character: `None` where no key waits or done is 1, and where nothing is sent.
    pub fn first_turns(&self) -> (Option<u64>, Option<u64>)
        ensures { result ≡ (takes_from self.now.receiver, transmitter_due self.now.transmitter) }
    {
        (self.receiver.takes_from(), self.transmitter.due())
    }

    /// Whether a character will be typed in this turn, if the line acts in it.
    pub fn types_in(&self, turn: u64) -> bool
        ensures { result ≡ is_some (typed_in turn self.now.transmitter) }
    {
        self.transmitter.types_in(turn)
    }

    /// Whether a section requests an interrupt.
    pub fn request(&self, section: Section) -> bool
        ensures { result ≡ line_requests section self.now }
    {
        match section {
            Section::Receiver => self.receiver.request(),
            Section::Transmitter => self.transmitter.request(),
        }
    }

    /// The processor serves the interrupt of a section, which drops its request.
    #[tactic(auto, unfolding(crate::specs::LineEvents::line_after_service))]
    pub fn ack(&mut self, section: Section)
        ensures { self.new ≡ line_after_service section self.old }
    {
        match section {
            Section::Receiver => self.receiver.ack(),
            Section::Transmitter => self.transmitter.ack(),
        }
    }

    /// INIT on the bus. Keys that wait stay, and so does the receiver's next turn.
    #[tactic(auto, unfolding(crate::specs::LineEvents::line_after_init))]
    pub fn init(&mut self)
        ensures { self.new ≡ line_after_init self.old }
    {
        self.receiver.init();
        self.transmitter = Transmitter::new();
    }
}
