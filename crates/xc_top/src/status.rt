//! What the top call answers.

ghost use Rattle.std.specs.Prelude.{◌≡◌};
ghost use Rattle.xc_top.specs.Codes.{code_of};

use xc_isa::TrapKind;
use xc_text_place::Pos;
use xc_top_words::Name;

/// Why a file is refused.
#[derive(Clone, Copy)]
pub enum FileKind {
    /// The text has no tokens.
    Lex,
    /// The tokens have no tree.
    Syntax,
    /// A node is too deep.
    Depth,
    /// A rule of names is broken.
    Name,
    /// A rule of types is broken.
    Typing,
    /// A loop, a global or an argument of `printf` is one too many.
    Count,
    /// The text is no assembly.
    Asm,
    /// The program is well typed, and has a form that is not translated yet.
    Unbuilt,
}

/// What a run made of steps, on how many processors of how many streams each.
#[derive(Clone, Copy)]
pub struct Numbers {
    pub steps: u64,
    pub streams: u32,
    pub processors: u32,
}

/// What is told of work that is done.
#[derive(Clone, Copy)]
pub enum Shown {
    /// A run that ended.
    Ran(Numbers),
    /// A text that was written.
    Nothing,
}

/// A step that traps, after so many steps of a run.
#[derive(Clone, Copy)]
pub struct TrapShown {
    pub kind: TrapKind,
    pub stream: u32,
    pub numbers: Numbers,
}

/// What is wrong with a schedule.
#[derive(Drop)]
pub enum Bad {
    /// The text of the file is no schedule: its first bad line.
    Line { name: Name, line: u32 },
    /// After so many steps it names a stream that is not ready, or is not used up.
    Entry { step: u64, numbers: Numbers },
}

/// How the top call ended.
#[derive(Drop)]
pub enum Status {
    /// The work is done, and all was written.
    Ok(Shown),
    /// The file could not be read.
    ReadFault(Name),
    /// The work is done, and not all could be written.
    WriteFault,
    /// The words are no command.
    Usage,
    /// The file is longer than its limit.
    Long(Name),
    /// The file is not what the command takes.
    Refused {
        name: Name,
        kind: FileKind,
        at: Pos,
    },
    /// A step traps. None: of a command that has no steps.
    Trap(Option<TrapShown>),
    /// As many steps were made as were allowed, or the schedule was used up, and a stream is ready.
    Unfinished(Option<Numbers>),
    /// A stream has not ended, and none is ready.
    Stuck(Numbers),
    BadSchedule(Bad),
    /// More words would be live than may be, or all numbers of segments are used up.
    WordsFull {
        live: u64,
        asked: u64,
        numbers: Numbers,
    },
    /// More would be printed than may be.
    OutFull {
        length: u64,
        piece: u64,
        numbers: Numbers,
    },
    /// The host's memory is used up.
    NoMemory,
}

impl Status {
    /// The code that the program ends with.
    pub fn code(&self) -> u8
        ensures { result ≡ code_of self.now }
    {
        match self {
            Status::Ok(_) => 0,
            Status::ReadFault(_) | Status::WriteFault => 1,
            Status::Usage => 2,
            Status::Long(_) | Status::Refused { .. } => 3,
            Status::Trap(_) => 4,
            Status::Unfinished(_) => 5,
            Status::Stuck(_) => 6,
            Status::BadSchedule(_) => 7,
            Status::WordsFull { .. } | Status::OutFull { .. } => 9,
            Status::NoMemory => 10,
        }
    }
}
