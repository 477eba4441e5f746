// What is said freely: contracts say where, and not what.
use p11_lines::Bytes;
use std::alloc::{Allocator, Global};
use std::marker::Model;

/// What is said behind an answer, and the file that wasn't written. Contracts see nothing of it.
#[derive(Drop)]
pub struct Note<A: Allocator = Global> {
    text: Option<Bytes<A>>,
    unwritten: Option<Bytes<A>>,
}

impl<A: Allocator> Model for Note<A> {
    ghost Value = { Unit {0} };

    ghost view = { λ _. tt };
}

impl<A: Allocator> Note<A> {
    /// Nothing.
    pub fn none() -> Self {
        Note {
            text: None,
            unwritten: None,
        }
    }

    /// This text.
    pub fn of(text: Vec<u8, A>) -> Self {
        Note {
            text: Some(Bytes::from_vec(text)),
            unwritten: None,
        }
    }

    /// This text, behind a line that would have written this file.
    pub fn unwritten(text: Vec<u8, A>, name: Bytes<A>) -> Self {
        Note {
            text: Some(Bytes::from_vec(text)),
            unwritten: Some(name),
        }
    }

    /// The file that would have been written.
    pub fn unwritten_name(&self) -> Option<&[u8]> {
        match &self.unwritten {
            Some(name) => Some(name.as_slice()),
            None => None,
        }
    }

    pub fn as_slice(&self) -> &[u8] {
        match &self.text {
            Some(text) => text.as_slice(),
            None => &[],
        }
    }
}

/// What help is asked for. Contracts see nothing of it.
#[derive(Drop)]
pub struct Topic {
    subject: Subject,
}

/// What help is asked for.
#[derive(Clone, Copy)]
pub enum Subject {
    /// All lines.
    All,
    /// The line of the word at this place.
    Word(usize),
    /// A word that there isn't.
    Unknown,
}

impl Model for Topic {
    ghost Value = { Unit {0} };

    ghost view = { λ _. tt };
}

impl Topic {
    pub fn new(subject: Subject) -> Self {
        Topic { subject }
    }

    pub fn subject(&self) -> Subject {
        self.subject
    }
}
