//! The receiver section: keys come in.
ghost use Rattle.std.specs.Prelude.{◌≡◌, ◌≤◌, ◌<◌, ◌^◌, ◌+◌, ◌++◌, ◌∷◌, [], false, length, IfOk};
ghost use Rattle.p11_dl11.specs.ReceiverEvents.{new_receiver, receiver_after_enable, receiver_after_init, receiver_after_turn, receiver_due, receiver_room};
ghost use Rattle.p11_dl11.specs.StatusRegister.{section_word};
ghost use Rattle.p11_dl11.specs.Calls.Taking.{takes_from};

use crate::keys::{Keys, MOST_KEYS};
use crate::status::{requests, section_word};
use std::alloc::{AllocError, Allocator, Global};
use std::marker::Model;

/// A character takes so many turns on the line.
pub(crate) const CHARACTER_TURNS: u64 = 64;

#[derive(Drop)]
pub(crate) struct Receiver<A: Allocator = Global> {
    done: bool,
    enable: bool,
    request: bool,
    character: u8,
    keys: Keys<A>,
    next_turn: u64,
}

impl<A: Allocator> Model for Receiver<A> {
    ghost use Rattle.p11_dl11.specs.ReceiverState.{ReceiverState};

    ghost Value = { ReceiverState };

    ghost view = { λ r. record {
      done = r.done;
      enable = r.enable;
      request = r.request;
      character = r.character;
      keys = r.keys;
      next_turn = r.next_turn;
    } };
}

impl<A: Allocator> Receiver<A> {
    #[tactic(auto, unfolding(crate::specs::ReceiverEvents::new_receiver))]
    pub(crate) fn new(alloc: A) -> Result<Self, AllocError>
        ensures { IfOk result (λ r. r ≡ new_receiver) }
    {
        Ok(Receiver {
            done: false,
            enable: false,
            request: false,
            character: 0,
            keys: Keys::new(alloc)?,
            next_turn: 0,
        })
    }

    #[tactic(auto, unfolding(crate::specs::ReceiverEvents::receiver_after_init))]
    pub(crate) fn init(&mut self)
        ensures { self.new ≡ receiver_after_init self.old }
    {
        self.read_character();
        self.enable = false;
        self.character = 0;
    }

    /// How many more keys may wait.
    pub(crate) fn room(&self) -> u32
        ensures room { result ≡ receiver_room self.now }
        ensures most { result + length self.now.keys ≡ 64 }
    {
        (MOST_KEYS - self.keys.len()) as u32
    }

    /// A key waits behind the others.
    pub(crate) fn key(&mut self, key: u8)
        requires { length self.old.keys < 64 }
        ensures { self.new ≡ record self.old { keys = self.old.keys ++ key ∷ [] } }
    {
        self.keys.push(key);
    }

    pub(crate) fn status(&self) -> u16
        ensures { result ≡ section_word self.now.done self.now.enable }
    {
        section_word(self.done, self.enable)
    }

    pub(crate) fn character(&self) -> u16
        ensures { result ≡ self.now.character }
    {
        u16::from(self.character)
    }

    pub(crate) fn read_character(&mut self)
        ensures { self.new ≡ record self.old { done = false; request = false } }
    {
        self.done = false;
        self.ack();
    }

    #[tactic(auto, unfolding(crate::specs::ReceiverEvents::receiver_after_enable))]
    pub(crate) fn set_enable(&mut self, enable: bool)
        ensures { self.new ≡ receiver_after_enable enable self.old }
    {
        self.request = requests(self.request, self.enable, self.done, enable);
        self.enable = enable;
    }

    pub(crate) fn request(&self) -> bool
        ensures { result ≡ self.now.request }
    {
        self.request
    }

    pub(crate) fn ack(&mut self)
        ensures { self.new ≡ record self.old { request = false } }
    {
        self.request = false;
    }

    /// Takes the first key that waits, where done is 0 and the next turn has come.
    #[tactic(auto, unfolding(crate::specs::ReceiverEvents::receiver_after_turn))]
    pub(crate) fn act(&mut self, turn: u64)
        requires { turn ≤ 2 ^ 62 }
        ensures { self.new ≡ receiver_after_turn turn self.old }
    {
        if self.done || turn < self.next_turn {
            return;
        }
        if let Some(key) = self.keys.pop() {
            self.done = true;
            self.request |= self.enable;
            self.character = key;
            self.next_turn = turn + CHARACTER_TURNS;
        }
    }

    /// The turn from which it takes a key, which may have passed, if one waits and done is 0.
    #[tactic(auto, unfolding(crate::specs::Calls::Taking::takes_from))]
    pub(crate) fn takes_from(&self) -> Option<u64>
        ensures { result ≡ takes_from self.now }
    {
        if self.done || self.keys.is_empty() {
            return None;
        }
        Some(self.next_turn)
    }

    /// The turn after this one in which it takes a key, if nothing else happens.
    #[tactic(auto, unfolding(crate::specs::ReceiverEvents::receiver_due))]
    pub(crate) fn due(&self, turn: u64) -> Option<u64>
        requires { turn ≤ 2 ^ 62 }
        ensures { result ≡ receiver_due turn self.now }
    {
        if self.done || self.keys.is_empty() {
            return None;
        }
        Some((turn + 1).max(self.next_turn))
    }
}
