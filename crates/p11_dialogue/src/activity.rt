// What is under way at a console.
ghost use Rattle.std.specs.Prelude.{◌≡◌};

use crate::note::{Note, Topic};
use crate::run::RunProgress;
use crate::stop::Stop;
use p11_lines::{Answer, Bytes, Line};
use std::alloc::{Allocator, Global};
use std::marker::Model;
use std::mem;

/// What is under way.
#[derive(Drop)]
pub enum Activity<A: Allocator = Global> {
    /// A line is done, and the next one is begun.
    Free,
    /// Keys make a line.
    Typing,
    /// The word at the cursor is to be completed.
    Naming,
    /// The line that was typed is ended, and isn't remembered yet.
    Entered,
    /// It is remembered, and isn't read yet.
    Noted,
    /// Help is asked for.
    Helping(Topic),
    /// A run, whose next slice is made.
    Running(RunProgress),
    /// A slice is made and has this answer, whose bytes aren't shown yet.
    Sliced {
        run: RunProgress,
        answer: Answer<A>,
    },
    /// A run is over, and that isn't told yet, nor this text recorded.
    Stopped {
        stop: Stop,
        text: Bytes<A>,
    },
    /// A line is done, and its answer isn't told yet, nor this text recorded.
    Telling {
        answer: Answer<A>,
        text: Bytes<A>,
        note: Note<A>,
    },
    /// A line waits for a file; the record has this text of it.
    Fetching {
        line: Line<A>,
        text: Bytes<A>,
    },
    /// A line waits until a file has these bytes, which may be there already if that is agreed; the record has this text of it.
    Putting {
        line: Line<A>,
        image: Bytes<A>,
        text: Bytes<A>,
        is_agreed: bool,
    },
    /// A person is asked whether a file that is there is written over.
    Asking {
        line: Line<A>,
        image: Bytes<A>,
        text: Bytes<A>,
    },
    /// A pack is to be taken off its drive: where no file has it a person is asked first, unless that is agreed already.
    Unmounting {
        drive: u32,
        is_agreed: bool,
    },
    /// A person is asked whether a pack that no file has is taken off its drive.
    Doubting {
        drive: u32,
    },
    /// The lines of a file are to be done.
    Opening {
        name: Bytes<A>,
    },
    /// The end is asked for.
    Leaving,
    /// The dialogue is over.
    Over,
}

/// The place of what is under way, which alone drops it: elsewhere a drop of each variant would be a case of its own.
pub struct ActivityCell<A: Allocator> {
    activity: Activity<A>,
}

impl<A: Allocator> Drop for ActivityCell<A> {
    fn drop(self) {
        let ActivityCell { activity: _ } = self;
    }
}

impl<A: Allocator> Model for ActivityCell<A> {
    ghost use Rattle.p11_dialogue.specs.declared.activity.Activity.{Activity};

    ghost Value = { Activity A };

    ghost view = { λ p. p.activity };
}

impl<A: Allocator> ActivityCell<A> {
    pub fn free() -> Self
        ensures { result ≡ Activity.Free }
    {
        ActivityCell {
            activity: Activity::Free,
        }
    }

    pub fn get(&self) -> &Activity<A>
        ensures { result.now ≡ self.now }
    {
        &self.activity
    }

    pub fn take(&mut self) -> Activity<A>
        ensures activity { result ≡ self.old }
        ensures free { self.new ≡ Activity.Free }
    {
        mem::replace(&mut self.activity, Activity::Free)
    }

    pub fn set(&mut self, activity: Activity<A>)
        ensures { self.new ≡ activity }
    {
        self.activity = activity;
    }
}
