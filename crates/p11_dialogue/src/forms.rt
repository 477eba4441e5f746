// The lines of the console, as a person is told of them: by the places of their words in p11_phrases.
use p11_phrases::WORDS;

/// What a word of a line has to be.
#[derive(Clone, Copy, PartialEq, Eq)]
pub(crate) enum Part {
    /// An address of the bus.
    Address,
    /// An address of 16 bits.
    Start,
    /// A word of the machine.
    Word,
    /// A register's number.
    Register,
    /// A drive's number.
    Drive,
    /// A count of words or of turns.
    Count,
    /// A period in turns.
    Period,
    /// A file's name.
    Name,
    /// `rw` or `ro`.
    Access,
    /// The text of keys.
    Text,
    /// A word for which there is help.
    Topic,
}

/// A line: the words behind its first one, and what is told of it.
pub(crate) struct Form {
    /// The words that have to stand there.
    pub(crate) wanted: &'static [Part],
    /// What may stand behind them, and how often at most.
    pub(crate) more: Option<(Part, usize)>,
    pub(crate) shown: &'static str,
    /// What it does.
    pub(crate) deed: &'static str,
    /// A line that has it.
    pub(crate) example: &'static str,
    /// What a person may type at a terminal in its place, beside a beginning of its word.
    pub(crate) short: &'static str,
    /// What it answers.
    pub(crate) answer: &'static str,
}

/// The lines, by the places of their words.
static FORMS: [Form; WORDS] = [
    Form {
        wanted: &[Part::Drive, Part::Name, Part::Access],
        more: None,
        shown: "mount DRIVE FILE rw|ro",
        deed: "mounts the pack in a file on a drive",
        example: "mount 0 system.pack rw",
        short: "",
        answer: "OK",
    },
    Form {
        wanted: &[Part::Drive],
        more: None,
        shown: "unmount DRIVE",
        deed: "takes the pack off a drive; what wasn't saved is lost",
        example: "unmount 0",
        short: "",
        answer: "OK",
    },
    Form {
        wanted: &[Part::Drive, Part::Name],
        more: None,
        shown: "save DRIVE FILE",
        deed: "writes the pack on a drive to a file",
        example: "save 0 system.pack",
        short: "",
        answer: "OK",
    },
    Form {
        wanted: &[Part::Drive],
        more: None,
        shown: "changed DRIVE",
        deed: "shows which sectors of a drive were written",
        example: "changed 0",
        short: "",
        answer: "CHANGED, how many, and their numbers",
    },
    Form {
        wanted: &[Part::Name],
        more: None,
        shown: "load FILE",
        deed: "loads an absolute paper tape",
        example: "load diagnostic.tape",
        short: "",
        answer: "TAPE, how many bytes, and the address for start, or none",
    },
    Form {
        wanted: &[Part::Address],
        more: Some((Part::Count, 1)),
        shown: "examine ADDRESS [COUNT]",
        deed: "shows words of the bus",
        example: "examine 1000 4",
        short: "e 1000-1020, e r0, e r0-sp; an empty line: the next word",
        answer: "EXAM address word, a line for each word",
    },
    Form {
        wanted: &[Part::Address, Part::Word],
        more: Some((Part::Word, 4096)),
        shown: "deposit ADDRESS WORD ..",
        deed: "writes words to the bus",
        example: "deposit 1000 12700 5 0",
        short: "d 1000-1020 0, d r0 5 6, d pc 1000",
        answer: "OK",
    },
    Form {
        wanted: &[Part::Start],
        more: None,
        shown: "start ADDRESS",
        deed: "resets the devices, sets PC; talk runs the machine",
        example: "start 1000",
        short: "",
        answer: "OK",
    },
    Form {
        wanted: &[Part::Text],
        more: None,
        shown: "key TEXT",
        deed: "presses keys; \\015 is the key of code 015",
        example: "key DIR\\015",
        short: "",
        answer: "OK",
    },
    Form {
        wanted: &[],
        more: None,
        shown: "tick",
        deed: "lets the line clock tick once",
        example: "tick",
        short: "",
        answer: "OK",
    },
    Form {
        wanted: &[Part::Period],
        more: None,
        shown: "clock TURNS",
        deed: "lets the clock tick every so many turns; 0: no more",
        example: "clock 10000",
        short: "",
        answer: "OK",
    },
    Form {
        wanted: &[Part::Word],
        more: None,
        shown: "switches WORD",
        deed: "sets the switch register",
        example: "switches 173030",
        short: "",
        answer: "OK",
    },
    Form {
        wanted: &[Part::Register, Part::Word],
        more: None,
        shown: "set REGISTER WORD",
        deed: "sets 0 to 5, 6 (SP), 7 (PC), 10 (user's SP), 11 (PS)",
        example: "set 7 1000",
        short: "",
        answer: "OK",
    },
    Form {
        wanted: &[],
        more: Some((Part::Count, 1)),
        shown: "step [TURNS]",
        deed: "makes turns, one if no count is given",
        example: "step 10",
        short: "",
        answer: "STOP halt or turns, the turns that were made, and PC",
    },
    Form {
        wanted: &[],
        more: Some((Part::Count, 1)),
        shown: "continue [TURNS]",
        deed: "makes turns until it idles; with no count as talk",
        example: "continue 1000000",
        short: "",
        answer: "STOP halt, turns or idle, the turns that were made, and PC",
    },
    Form {
        wanted: &[],
        more: None,
        shown: "regs",
        deed: "shows the registers",
        example: "regs",
        short: "",
        answer: "REGS: R0 to R5; SP: the kernel's and the user's, PC, PS; TURN",
    },
    Form {
        wanted: &[],
        more: None,
        shown: "device",
        deed: "shows the devices",
        example: "device",
        short: "",
        answer: "a line for the clock, the terminal, the disks, each drive, mapping",
    },
    Form {
        wanted: &[],
        more: None,
        shown: "flush",
        deed: "drops what is kept to be quick; no answer changes",
        example: "flush",
        short: "",
        answer: "OK",
    },
    Form {
        wanted: &[],
        more: None,
        shown: "talk",
        deed: "sits at the machine's terminal; Ctrl-E comes back",
        example: "talk",
        short: "",
        answer: "STOP key after Ctrl-E, or STOP halt; the turns that were made, and PC",
    },
    Form {
        wanted: &[Part::Name],
        more: None,
        shown: "do FILE",
        deed: "does the lines of a script",
        example: "do examples/boot.p11",
        short: "",
        answer: "the answers of its lines",
    },
    Form {
        wanted: &[],
        more: Some((Part::Topic, 1)),
        shown: "help [WORD]",
        deed: "shows this list, or what there is about one word",
        example: "help mount",
        short: "?",
        answer: "nothing more",
    },
    Form {
        wanted: &[],
        more: None,
        shown: "quit",
        deed: "leaves; tells first of packs that no file has",
        example: "quit",
        short: "exit",
        answer: "nothing more",
    },
];

/// The line of the word at a place.
pub(crate) fn form_at(place: usize) -> Option<&'static Form> {
    FORMS.get(place)
}

impl Form {
    /// What the word behind so many others has to be.
    pub(crate) fn part(&self, others: usize) -> Option<Part> {
        match self.wanted.get(others) {
            Some(part) => Some(*part),
            None => match self.more {
                Some((part, _)) => Some(part),
                None => None,
            },
        }
    }

    /// How many words may stand behind the first one.
    pub(crate) fn most(&self) -> usize {
        match self.more {
            Some((_, most)) => self.wanted.len().saturating_add(most),
            None => self.wanted.len(),
        }
    }
}

impl Part {
    /// What it is, and what may stand there.
    pub(crate) fn meaning(self) -> &'static str {
        match self {
            Part::Address => "an address: one to six octal digits, at most 777777",
            Part::Start => "an address: one to six octal digits, at most 177777",
            Part::Word => "a word: one to six octal digits, at most 177777",
            Part::Register => {
                "a register: 0 to 5, 6 (SP), 7 (PC), 10 (the user's SP) or 11 (status)"
            }
            Part::Drive => "a drive: 0 to 7",
            Part::Count => "a count: one to nine decimal digits, not 0",
            Part::Period => "a number of turns: one to nine decimal digits, 0 for no ticks",
            Part::Name => "a file's name: 1 to 255 bytes, with no blank",
            Part::Access => "rw (may be written) or ro (protected)",
            Part::Text => {
                "keys without blanks: \\040 is a space, \\015 return, \\134 a backslash"
            }
            Part::Topic => "a word that help lists",
        }
    }
}
