//! What a command answers to the texts of its files.

ghost use Rattle.std.specs.Prelude.{◌≡◌, ◌≤◌, ◌^◌, ℕ, List, [], Some, None, length, IfOk, MatchResult};
ghost use Rattle.std.specs.Option.{option_map};
ghost use Rattle.xc_top_words.specs.Commands.{options_in};
ghost use Rattle.xc_top.specs.Judges.{IsSourceCode, kind_of as kind_of_refusal, IsRefusedSource, IsRefusedCode, StandsFor, IsRefused, Chooses, IsBadSchedule, status_of, with_choices, Executes, IsWritten, Judges};
ghost use Rattle.xc_top.specs.InnerJudges.{IsGiven, IsGivenTo};
ghost use Rattle.xc_top.specs.Lines.{line_of};
ghost use Rattle.xc_top.specs.Answers.{limit_in};
ghost use Rattle.xc_isa_text.specs.Texts.{contents_of, Spells};
ghost use Rattle.xc_text_lines.specs.Grammar.{IsFirstBad};
ghost use Rattle.xc_sched.specs.Runs.{IsRead, IsSchedule};
ghost use Rattle.xc_text_place.specs.declared.Pos.{Pos};

use crate::lines::line;
use crate::status::{Bad, FileKind, Numbers, Shown, Status, TrapShown};
use std::alloc::{AllocError, Global};
use xc_driver::{CompileFault, Compiled, RefusalKind, compile};
use xc_hold::kept;
use xc_isa::Code;
use xc_isa_text::AsmFault;
use xc_machine_play::{Ending, Outcome, Source, play};
use xc_sched::{SchedFault, read_schedule};
use xc_text_place::Pos;
use xc_top_words::{Choice, Command, Name, Options};

/// What there is to say and to write.
#[derive(Drop)]
pub(crate) struct Plan {
    pub(crate) status: Status,
    pub(crate) out: Vec<u8>,
    pub(crate) err: Vec<u8>,
}

/// Why a text stands for no code.
#[derive(Clone, Copy)]
enum CodeFault {
    Refused { kind: FileKind, at: Pos },
    NoMemory,
}

impl From<AllocError> for CodeFault {
    ghost use Rattle.std.specs.Prelude.{◌≡◌};
    ghost use Rattle.xc_top.specs.declared.judge.CodeFault.TheVariants.{NoMemory};

    ghost from_gives = { λ _ e. e ≡ NoMemory };

    fn from(_: AllocError) -> CodeFault {
        CodeFault::NoMemory
    }
}

/// The code of assembly.
fn assembly_code(alloc: Global, text: &[u8]) -> Result<Code, CodeFault>
    requires { length text.now ≤ 2 ^ 26 }
    ensures { MatchResult result (λ code. Spells text.now (contents_of code))
        (λ e. (kind : FileKind) → (at : Pos) → e ≡ CodeFault.Refused kind at → IsRefusedCode text.now kind at) }
{
    match xc_isa_text::read(alloc, text) {
        Ok(code) => Ok(code),
        Err(AsmFault::Line(line)) => Err(CodeFault::Refused {
            kind: FileKind::Asm,
            at: Pos { line, col: 1 },
        }),
        Err(AsmFault::NoMemory) => Err(CodeFault::NoMemory),
    }
}

/// How the reason why a source has no code is told.
fn kind_of(kind: RefusalKind) -> FileKind
    ensures { result ≡ kind_of_refusal kind }
{
    match kind {
        RefusalKind::Lex => FileKind::Lex,
        RefusalKind::Syntax => FileKind::Syntax,
        RefusalKind::Depth => FileKind::Depth,
        RefusalKind::Name => FileKind::Name,
        RefusalKind::Typing => FileKind::Typing,
        RefusalKind::Count => FileKind::Count,
        RefusalKind::Unbuilt => FileKind::Unbuilt,
    }
}

/// The code of a source.
fn source_code(alloc: Global, text: &[u8]) -> Result<Code, CodeFault>
    requires { length text.now ≤ 2 ^ 20 }
    ensures { MatchResult result (λ code. IsSourceCode text.now code)
        (λ e. (kind : FileKind) → (at : Pos) → e ≡ CodeFault.Refused kind at → IsRefusedSource text.now kind at) }
{
    match compile(alloc, text) {
        Ok(Compiled { tree, code }) => {
            drop(tree);
            Ok(code)
        }
        Err(CompileFault::Refused(refusal)) => Err(CodeFault::Refused {
            kind: kind_of(refusal.kind),
            at: refusal.at,
        }),
        Err(CompileFault::NoMemory) => Err(CodeFault::NoMemory),
    }
}

/// The code that a file's text stands for.
fn code_in(alloc: Global, command: &Command, text: &[u8]) -> Result<Code, CodeFault>
    requires { length text.now ≤ limit_in command.now }
    ensures { MatchResult result (λ code. StandsFor command.now text.now code)
        (λ e. (kind : FileKind) → (at : Pos) → e ≡ CodeFault.Refused kind at → IsRefused command.now text.now kind at) }
{
    match command {
        Command::Run { .. } | Command::Compile { .. } => source_code(alloc, text),
        Command::Exec { .. } => assembly_code(alloc, text),
    }
}

/// The steps of a schedule's text, or its first bad line.
fn steps_in(alloc: Global, file: &Name, text: &[u8]) -> Result<Result<Source, Bad>, AllocError>
    requires { length text.now ≤ 2 ^ 26 }
    ensures { IfOk result (λ r. MatchResult r (λ s. (steps : List ℕ) × IsRead text.now steps × (s ≡ Source.Schedule steps))
        (λ bad. (k : ℕ) × (bad ≡ Bad.Line file.now k) × IsFirstBad IsSchedule text.now k)) }
{
    match read_schedule(alloc, text) {
        Ok(steps) => Ok(Ok(Source::Schedule(steps))),
        Err(SchedFault::Line(line)) => {
            let name = Name::new(alloc, file.as_str())?;
            Ok(Err(Bad::Line { name, line }))
        }
        Err(SchedFault::NoMemory) => Err(AllocError),
    }
}

/// What chooses the streams, or what is wrong with the schedule.
fn source_in(
    alloc: Global,
    choice: &Choice,
    schedule: &Option<Vec<u8>>,
) -> Result<Result<Source, Bad>, AllocError>
    requires { IsGiven choice.now (option_map (λ v. v.items) schedule.now) }
    ensures { IfOk result (λ r. MatchResult r (λ s. Chooses choice.now (option_map (λ v. v.items) schedule.now) s)
        (λ bad. (name : List ℕ) × (k : ℕ) × (bad ≡ Bad.Line name k) × IsBadSchedule choice.now (option_map (λ v. v.items) schedule.now) name k)) }
{
    match choice {
        Choice::Turns => Ok(Ok(Source::Turns)),
        Choice::Seed(seed) => Ok(Ok(Source::Seed(*seed))),
        Choice::Schedule(file) => match schedule {
            Some(text) => steps_in(alloc, file, text.as_slice()),
            None => unreachable!(),
        },
    }
}

/// The status of a run that ended so.
fn status(ending: Ending, numbers: Numbers) -> Status
    ensures { result ≡ status_of ending numbers }
{
    match ending {
        Ending::Ended => Status::Ok(Shown::Ran(numbers)),
        Ending::Left | Ending::BadChoice => Status::BadSchedule(Bad::Entry {
            step: numbers.steps,
            numbers,
        }),
        Ending::Stuck => Status::Stuck(numbers),
        Ending::Unfinished => Status::Unfinished(Some(numbers)),
        Ending::Trap { kind, stream } => Status::Trap(Some(TrapShown {
            kind,
            stream,
            numbers,
        })),
        Ending::WordsFull { live, asked } => Status::WordsFull {
            live,
            asked,
            numbers,
        },
        Ending::OutFull { length, piece } => Status::OutFull {
            length,
            piece,
            numbers,
        },
    }
}

/// A status alone, with its line.
pub(crate) fn say(alloc: Global, status: Status) -> Result<Plan, AllocError>
    ensures { IfOk result (λ p. (p.status ≡ status) × (p.out.items ≡ []) × (p.err.items ≡ line_of status)) }
{
    let (err, status) = kept(line(alloc, &status), status)?;
    Ok(Plan {
        status,
        out: Vec::new(alloc),
        err,
    })
}

/// The file is not what the command takes.
fn refuse(alloc: Global, name: &Name, kind: FileKind, at: Pos) -> Result<Plan, AllocError>
    ensures { IfOk result (λ p. (p.status ≡ Status.Refused name.now kind at) × (p.out.items ≡ []) × (p.err.items ≡ line_of (Status.Refused name.now kind at))) }
{
    let name = Name::new(alloc, name.as_str())?;
    say(alloc, Status::Refused { name, kind, at })
}

/// The line of a status, and the choices behind it where they are wanted.
fn line_and_choices(
    alloc: Global,
    status: &Status,
    choices: &Option<Vec<u8>>,
) -> Result<Vec<u8>, AllocError>
    ensures { IfOk result (λ text. text.items ≡ with_choices (line_of status.now) (option_map (λ v. v.items) choices.now)) }
{
    let mut text = line(alloc, status)?;
    if let Some(choices) = choices {
        text.extend_from_slice(choices.as_slice())?;
    }
    Ok(text)
}

/// The end of a run.
fn plan_of_run(
    alloc: Global,
    outcome: Outcome,
    streams: u32,
    processors: u32,
) -> Result<Plan, AllocError>
    ensures { IfOk result (λ p. (p.status ≡ status_of outcome.ending (record { steps = outcome.steps; streams = streams; processors = processors })) × (p.out.items ≡ outcome.out.items) × (p.err.items ≡ with_choices (line_of (status_of outcome.ending (record { steps = outcome.steps; streams = streams; processors = processors }))) (option_map (λ v. v.items) outcome.choices))) }
{
    let Outcome {
        ending,
        steps,
        out,
        choices,
    } = outcome;
    let numbers = Numbers {
        steps,
        streams,
        processors,
    };
    let status = status(ending, numbers);
    let text = line_and_choices(alloc, &status, &choices);
    drop(choices);
    let (err, (status, out)) = kept(text, (status, out))?;
    Ok(Plan { status, out, err })
}

/// What comes of code that is run as these options say.
fn execute(
    alloc: Global,
    code: &Code,
    options: &Options,
    schedule: &Option<Vec<u8>>,
) -> Result<Plan, AllocError>
    requires { IsGiven options.now.choice (option_map (λ v. v.items) schedule.now) }
    ensures { IfOk result (λ p. Executes options.now code.now (option_map (λ v. v.items) schedule.now) p.status p.out.items p.err.items) }
{
    match source_in(alloc, &options.choice, schedule)? {
        Ok(source) => {
            let outcome = play(alloc, code, options, source)?;
            let streams = options.streams.number() as u32;
            let processors = options.processors.number() as u32;
            plan_of_run(alloc, outcome, streams, processors)
        }
        Err(bad) => say(alloc, Status::BadSchedule(bad)),
    }
}

/// The assembly of code.
fn write_code(alloc: Global, code: &Code) -> Result<Plan, AllocError>
    ensures { IfOk result (λ p. IsWritten code.now p.status p.out.items p.err.items) }
{
    let out = xc_isa_text::print(alloc, code)?;
    Ok(Plan {
        status: Status::Ok(Shown::Nothing),
        out,
        err: Vec::new(alloc),
    })
}

/// What a command answers to the code of its file.
fn plan_of_code(
    alloc: Global,
    command: &Command,
    text: &[u8],
    code: &Code,
    schedule: &Option<Vec<u8>>,
) -> Result<Plan, AllocError>
    requires code { StandsFor command.now text.now code.now }
    requires given { IsGivenTo (options_in command.now) (option_map (λ v. v.items) schedule.now) }
    ensures { IfOk result (λ p. Judges command.now text.now (option_map (λ v. v.items) schedule.now) p.status p.out.items p.err.items) }
{
    match command.options() {
        Some(options) => execute(alloc, code, options, schedule),
        None => write_code(alloc, code),
    }
}

/// What a command answers to the texts of its files: the file's, and that of a schedule where one is named.
pub(crate) fn judge(
    alloc: Global,
    command: &Command,
    text: &[u8],
    schedule: &Option<Vec<u8>>,
) -> Result<Plan, AllocError>
    requires short { length text.now ≤ limit_in command.now }
    requires given { IsGivenTo (options_in command.now) (option_map (λ v. v.items) schedule.now) }
    ensures { IfOk result (λ p. Judges command.now text.now (option_map (λ v. v.items) schedule.now) p.status p.out.items p.err.items) }
{
    match code_in(alloc, command, text) {
        Ok(code) => {
            let plan = plan_of_code(alloc, command, text, &code, schedule);
            drop(code);
            plan
        }
        Err(CodeFault::Refused { kind, at }) => refuse(alloc, command.file(), kind, at),
        Err(CodeFault::NoMemory) => Err(AllocError),
    }
}
