// A console as C's calls drive it.
ghost use Rattle.std.specs.Prelude.{◌≡◌, ◌+◌, ◌++◌, min, true, length, drop, Ok, Err, option_copied};
ghost use Rattle.p11_line_editor.specs.Completion.{word_of};
ghost use Rattle.p11_line_editor.specs.History.{remembered};
ghost use Rattle.p11_console.specs.Files.{Gives, Names, opening, wanted, image_in, may_replace, is_pack};
ghost use Rattle.p11_dialogue.specs.Said.{Says};
ghost use Rattle.p11_console.specs.State.{opened};
ghost use Rattle.p11_console.specs.Steps.{Steps, status_of};
ghost use Rattle.p11_dialogue.specs.Typing.{rested};
ghost use Rattle.p11_handles.specs.HeldConsoles.{manner_of};
ghost use Rattle.p11_handles.specs.ConsoleCalls.{DoneOr, TakesFront, TakesBy, error_of};

use crate::host_words::{put_of, trouble_of};
use crate::status::Status;
use p11_console::{Console, Manner, Settings, Want};
use p11_panel::Panel;
use std::alloc::{AllocError, Global};
use std::marker::Model;

/// Where lines come from, by C's number.
#[tactic(auto, unfolding(crate::specs::HeldConsoles::manner_of))]
pub(crate) fn manner_of(manner: u32) -> Manner
    ensures { result ≡ manner_of manner }
{
    if manner == 0 {
        Manner::Typed
    } else if manner == 1 {
        Manner::Given
    } else {
        Manner::Batch
    }
}

/// The names that a text has, a 0 between each and the next.
fn names_in(alloc: Global, text: &[u8]) -> Result<Vec<&[u8]>, AllocError> {
    let mut names = Vec::new(alloc);
    for name in text.split(|byte| *byte == 0) {
        names.push(name)?;
    }
    Ok(names)
}

/// A console. Contracts see its `ConsoleState`.
#[derive(Drop)]
pub struct HeldConsole {
    console: Console,
}

impl Model for HeldConsole {
    ghost use Rattle.p11_handles.specs.HeldConsoles.{Dialogue};

    ghost Value = { Dialogue };

    ghost view = { λ s. s.console };
}

impl HeldConsole {
    /// A console over a machine, with nothing under way.
    pub(crate) fn new(alloc: Global, panel: Panel, settings: Settings) -> Self
        ensures { result ≡ opened panel settings }
    {
        HeldConsole {
            console: Console::new(alloc, panel, settings),
        }
    }

    /// The lines of the file of this name come next, where nothing is under way.
    #[tactic(auto, unfolding(crate::specs::ConsoleCalls::DoneOr))]
    pub fn begin_with(&mut self, alloc: Global, name: &[u8]) -> Status
        ensures { DoneOr result (self.new ≡ record self.old { activity = opening name.now self.old.activity }) (self.new ≡ self.old) }
    {
        match self.console.open(alloc, name) {
            Ok(()) => Status::Done,
            Err(_) => Status::NoMemory,
        }
    }

    /// A line that was typed in an earlier dialogue.
    #[tactic(auto, unfolding(crate::specs::ConsoleCalls::DoneOr))]
    pub fn remember(&mut self, alloc: Global, line: &[u8]) -> Status
        ensures { DoneOr result
            (self.new ≡ record self.old { typist = record self.old.typist { history = remembered line.now self.old.typist.history } })
            (self.new ≡ self.old) }
    {
        match self.console.remember(alloc, line) {
            Ok(()) => Status::Done,
            Err(_) => Status::NoMemory,
        }
    }

    /// Keys come behind those that wait.
    #[tactic(auto, unfolding(crate::specs::ConsoleCalls::DoneOr))]
    pub fn keys(&mut self, bytes: &[u8]) -> Status
        ensures { DoneOr result (self.new ≡ record self.old { waiting = self.old.waiting ++ bytes.now }) (self.new ≡ self.old) }
    {
        match self.console.keys(bytes) {
            Ok(()) => Status::Done,
            Err(_) => Status::NoMemory,
        }
    }

    /// No key comes any more.
    pub fn closed(&mut self)
        ensures { self.new ≡ record self.old { is_over = true } }
    {
        self.console.closed();
    }

    /// The keyboard has nothing more for now.
    pub fn paused(&mut self)
        ensures { self.new ≡ record self.old { typist = rested self.old.typist } }
    {
        self.console.paused();
    }

    /// The line clock ticks, once the machine can take that.
    pub fn ticked(&mut self)
        ensures { self.new ≡ record self.old { ticks = min (self.old.ticks + 1) 4294967295 } }
    {
        self.console.ticked();
    }

    /// The screen has so many columns.
    pub fn resized(&mut self, columns: usize)
        ensures { self.new ≡ self.old }
    {
        self.console.resized(columns);
    }

    /// Shows the line again that is typed.
    pub fn redrawn(&mut self)
        ensures { Says self.old.screen self.new.screen × (self.new ≡ record self.old { screen = self.new.screen }) }
    {
        self.console.redrawn();
    }

    /// Does one thing.
    pub fn step(&mut self, alloc: Global, turns: u32) -> Want
        ensures { Steps turns self.old result self.new }
    {
        self.console.step(alloc, turns)
    }

    /// The bytes for the screen that weren't taken.
    pub fn screen(&self) -> &[u8]
        ensures { result.now ≡ self.now.screen }
    {
        self.console.screen()
    }

    /// The bytes for the record that weren't taken.
    pub fn journal(&self) -> &[u8]
        ensures { result.now ≡ self.now.journal }
    {
        self.console.record()
    }

    /// The bytes for the history's file that weren't taken.
    pub fn past(&self) -> &[u8]
        ensures { result.now ≡ self.now.past }
    {
        self.console.past()
    }

    /// The bytes for the standard error that weren't taken.
    pub fn errors(&self) -> &[u8] {
        self.console.errors()
    }

    /// So many bytes of the screen's are taken.
    #[tactic(auto, unfolding(crate::specs::ConsoleCalls::TakesFront))]
    pub fn shown(&mut self, count: usize) -> Status
        ensures { TakesFront result count self.old.screen
            (self.new ≡ record self.old { screen = drop count self.old.screen }) (self.new ≡ self.old) }
    {
        if self.console.screen().len() < count {
            return Status::TooMany;
        }
        self.console.shown(count);
        Status::Done
    }

    /// So many bytes of the record's are taken.
    #[tactic(auto, unfolding(crate::specs::ConsoleCalls::TakesFront))]
    pub fn recorded(&mut self, count: usize) -> Status
        ensures { TakesFront result count self.old.journal
            (self.new ≡ record self.old { journal = drop count self.old.journal }) (self.new ≡ self.old) }
    {
        if self.console.record().len() < count {
            return Status::TooMany;
        }
        self.console.recorded(count);
        Status::Done
    }

    /// So many bytes of the history's are taken.
    #[tactic(auto, unfolding(crate::specs::ConsoleCalls::TakesFront))]
    pub fn kept(&mut self, count: usize) -> Status
        ensures { TakesFront result count self.old.past
            (self.new ≡ record self.old { past = drop count self.old.past }) (self.new ≡ self.old) }
    {
        if self.console.past().len() < count {
            return Status::TooMany;
        }
        self.console.kept(count);
        Status::Done
    }

    /// All that is for the standard error is taken.
    pub fn told(&mut self)
        ensures { self.new ≡ self.old }
    {
        self.console.told();
    }

    /// The name of the file that is wanted, or that `image` is for.
    pub fn name(&self) -> Option<&[u8]>
        ensures { option_copied result ≡ wanted self.now.activity }
    {
        self.console.name()
    }

    /// The bytes that the file is to have.
    pub fn image(&self) -> Option<&[u8]>
        ensures { option_copied result ≡ image_in self.now.activity }
    {
        self.console.image()
    }

    /// Whether a file of that name which is there may be written over.
    pub fn may_replace(&self) -> bool
        ensures { result ≡ may_replace self.now.activity }
    {
        self.console.may_replace()
    }

    /// Whether the file that is wanted is a pack's.
    pub fn is_pack(&self) -> bool
        ensures { result ≡ is_pack self.now.activity }
    {
        self.console.is_pack()
    }

    /// The host gives the bytes of the file that is wanted.
    #[tactic(auto, unfolding(crate::specs::ConsoleCalls::DoneOr))]
    pub fn fetched(&mut self, alloc: Global, bytes: &[u8]) -> Status
        ensures { DoneOr result (Gives (Ok bytes.now) self.old.activity self.old self.new) (self.new ≡ self.old) }
    {
        match Vec::from_slice(alloc, bytes) {
            Ok(copy) => {
                self.console.fetched(alloc, Ok(copy));
                Status::Done
            }
            Err(_) => Status::NoMemory,
        }
    }

    /// The host has no bytes of the file that is wanted, for this reason.
    pub fn missed(&mut self, alloc: Global, trouble: u32)
        ensures { Gives (Err (error_of trouble)) self.old.activity self.old self.new }
    {
        self.console.fetched(alloc, Err(trouble_of(trouble)));
    }

    /// What became of the file that was to be written.
    pub fn written(&mut self, alloc: Global, trouble: u32)
        ensures { TakesBy trouble self.old self.new }
    {
        let done = put_of(trouble);
        self.console.put(alloc, done);
    }

    /// The host gives names of files, a 0 between each and the next.
    #[tactic(auto, unfolding(crate::specs::ConsoleCalls::DoneOr))]
    pub fn names(&mut self, alloc: Global, names: &[u8]) -> Status
        ensures { DoneOr result (Names self.old.activity self.old self.new) (self.new ≡ self.old) }
    {
        match names_in(alloc, names) {
            Ok(names) => {
                self.console.names(alloc, names.as_slice());
                Status::Done
            }
            Err(_) => Status::NoMemory,
        }
    }

    /// The word with which names have to begin.
    pub fn front(&self) -> &[u8]
        ensures { result.now ≡ word_of self.now.typist.editor.line }
    {
        self.console.front()
    }

    /// The status of a program that holds this dialogue, once it is over.
    pub fn status(&self) -> u32
        ensures { result ≡ status_of self.now }
    {
        u32::from(self.console.status())
    }

    /// The machine.
    pub fn panel(&self) -> &Panel
        ensures { result.now ≡ self.now.machine }
    {
        self.console.panel()
    }
}
