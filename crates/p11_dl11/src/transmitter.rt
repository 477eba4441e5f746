//! The transmitter section: characters are typed.
ghost use Rattle.std.specs.Prelude.{◌≡◌, ◌≤◌, ◌^◌, false, is_some};
ghost use Rattle.p11_dl11.specs.TransmitterState.{is_ready};
ghost use Rattle.p11_dl11.specs.TransmitterEvents.{new_transmitter, sending_after, transmitter_after_character, transmitter_after_enable, transmitter_after_turn, transmitter_due, typed_in};
ghost use Rattle.p11_dl11.specs.StatusRegister.{section_word};

use crate::receiver::CHARACTER_TURNS;
use crate::status::{requests, section_word};
use p11_words::is_due;
use std::marker::Model;

/// A character that is being sent, with the turn in which it is typed.
#[derive(Clone, Copy)]
pub struct Sending {
    pub character: u8,
    pub due: u64,
}

#[derive(Drop)]
pub(crate) struct Transmitter {
    enable: bool,
    request: bool,
    sending: Option<Sending>,
}

impl Model for Transmitter {
    ghost use Rattle.p11_dl11.specs.TransmitterState.{TransmitterState};

    ghost Value = { TransmitterState };

    ghost view = { λ t. record { enable = t.enable; request = t.request; sending = t.sending } };
}

/// What is being sent after a character has been written in this turn.
fn sending_next(sending: Option<Sending>, turn: u64, character: u8) -> Sending
    requires { turn ≤ 2 ^ 62 }
    ensures { result ≡ sending_after sending turn character }
{
    match sending {
        None => Sending {
            character,
            due: turn + CHARACTER_TURNS,
        },
        Some(sent) => Sending {
            character,
            due: sent.due,
        },
    }
}

impl Transmitter {
    #[tactic(auto, unfolding(crate::specs::TransmitterEvents::new_transmitter))]
    pub(crate) fn new() -> Self
        ensures { result ≡ new_transmitter }
    {
        Transmitter {
            enable: false,
            request: false,
            sending: None,
        }
    }

    pub(crate) fn is_ready(&self) -> bool
        ensures { result ≡ is_ready self.now }
    {
        self.sending.is_none()
    }

    pub(crate) fn status(&self) -> u16
        ensures { result ≡ section_word (is_ready self.now) self.now.enable }
    {
        section_word(self.is_ready(), self.enable)
    }

    #[tactic(auto, unfolding(crate::specs::TransmitterEvents::transmitter_after_enable))]
    pub(crate) fn set_enable(&mut self, enable: bool)
        ensures { self.new ≡ transmitter_after_enable enable self.old }
    {
        self.request = requests(self.request, self.enable, self.sending.is_none(), enable);
        self.enable = enable;
    }

    #[tactic(auto, unfolding(crate::specs::TransmitterEvents::transmitter_after_character))]
    pub(crate) fn send(&mut self, turn: u64, character: u8)
        requires { turn ≤ 2 ^ 62 }
        ensures { self.new ≡ transmitter_after_character turn character self.old }
    {
        self.sending = Some(sending_next(self.sending, turn, character));
    }

    pub(crate) fn request(&self) -> bool
        ensures { result ≡ self.now.request }
    {
        self.request
    }

    pub(crate) fn ack(&mut self)
        ensures { self.new ≡ record self.old { request = false } }
    {
        self.request = false;
    }

    /// The character that is typed in this turn, if one is due in it.
    #[tactic(auto, unfolding(crate::specs::TransmitterEvents::transmitter_due, crate::specs::TransmitterEvents::typed_in, p11_words::specs::DueTurns::is_due))]
    fn typed(&self, turn: u64) -> Option<u8>
        ensures { result ≡ typed_in turn self.now }
    {
        match self.sending {
            Some(sent) if sent.due == turn => Some(sent.character),
            _ => None,
        }
    }

    /// Types the character that is due in this turn, if any.
    #[tactic(auto, unfolding(crate::specs::TransmitterEvents::transmitter_after_turn))]
    pub(crate) fn act(&mut self, turn: u64) -> Option<u8>
        ensures state { self.new ≡ transmitter_after_turn turn self.old }
        ensures typed { result ≡ typed_in turn self.old }
    {
        let typed = self.typed(turn);
        if is_due(turn, self.due()) {
            self.request |= self.enable;
            self.sending = None;
        }
        typed
    }

    /// Whether a character is due in this turn.
    pub(crate) fn types_in(&self, turn: u64) -> bool
        ensures { result ≡ is_some (typed_in turn self.now) }
    {
        self.typed(turn).is_some()
    }

    /// The turn in which a character is typed, if nothing else happens.
    #[tactic(auto, unfolding(crate::specs::TransmitterEvents::transmitter_due))]
    pub(crate) fn due(&self) -> Option<u64>
        ensures { result ≡ transmitter_due self.now }
    {
        match self.sending {
            Some(sent) => Some(sent.due),
            None => None,
        }
    }
}
