//! The texts of a command's files.

ghost use Rattle.std.specs.Prelude.{◌≡◌, ◌^◌, ℕ, List, Some, OnErr, IfOk};
ghost use Rattle.std.specs.Option.{option_map};
ghost use Rattle.xc_top_words.specs.Commands.{schedule_of};
ghost use Rattle.xc_top.specs.Seen.{shelf_seen};
ghost use Rattle.xc_top.specs.Answers.{Fetches, Has, HasSchedule, AreRead, IsUnread, IsUnreadAt, MayHaveFetched, limit_in};

use crate::status::Status;
use std::alloc::{AllocError, Global};
use xc_edge::{Fetch, Shelf};
use xc_top_words::{Command, Name};

/// No source is longer.
const SOURCE_LIMIT: usize = 1 << 20;

/// No assembly and no schedule is longer.
const TEXT_LIMIT: usize = 1 << 26;

/// Why a file was not read.
#[derive(Drop)]
pub(crate) enum Unread {
    /// What there is to say of it.
    Said(Status),
    NoMemory,
}

impl From<AllocError> for Unread {
    ghost use Rattle.std.specs.Prelude.{◌≡◌};
    ghost use Rattle.xc_top.specs.declared.fetch.Unread.TheVariants.{NoMemory};

    ghost from_gives = { λ _ e. e ≡ NoMemory };

    fn from(_: AllocError) -> Unread {
        Unread::NoMemory
    }
}

/// The texts of a command's files: the file's, and that of a schedule where one is named.
#[derive(Drop)]
pub(crate) struct Texts {
    pub(crate) text: Vec<u8>,
    pub(crate) schedule: Option<Vec<u8>>,
}

/// The text of a file.
fn fetch_text<F: Shelf>(
    alloc: Global,
    name: &Name,
    limit: usize,
    shelf: &mut F,
) -> Result<Vec<u8>, Unread>
    ensures fetches { Fetches name.now limit (shelf_seen F.files F.faults F.taken shelf.old shelf.new) }
    ensures text { IfOk result (λ t. Has (shelf_seen F.files F.faults F.taken shelf.old shelf.new) name.now limit t.items) }
    ensures unread { (status : Status) → result ≡ Err (Unread.Said status) → IsUnreadAt name.now limit (shelf_seen F.files F.faults F.taken shelf.old shelf.new) status }
    ensures files_stay { F.files shelf.new ≡ F.files shelf.old }
{
    match shelf.fetch(name.as_str(), limit) {
        Ok(text) => Ok(text),
        Err(Fetch::Failed) => {
            let name = Name::new(alloc, name.as_str())?;
            Err(Unread::Said(Status::ReadFault(name)))
        }
        Err(Fetch::Long) => {
            let name = Name::new(alloc, name.as_str())?;
            Err(Unread::Said(Status::Long(name)))
        }
        Err(Fetch::NoMemory) => Err(Unread::NoMemory),
    }
}

/// How long the file of a command may be.
fn limit(command: &Command) -> usize
    ensures { result ≡ limit_in command.now }
{
    match command {
        Command::Run { .. } | Command::Compile { .. } => SOURCE_LIMIT,
        Command::Exec { .. } => TEXT_LIMIT,
    }
}

/// The text of a command's schedule, where one is named.
fn fetch_schedule<F: Shelf>(
    alloc: Global,
    command: &Command,
    shelf: &mut F,
) -> Result<Option<Vec<u8>>, Unread>
    ensures fetches { OnErr result ((name : List ℕ) × (schedule_of command.now ≡ Some name) × Fetches name (2 ^ 26) (shelf_seen F.files F.faults F.taken shelf.old shelf.new)) }
    ensures text { IfOk result (λ t. HasSchedule (shelf_seen F.files F.faults F.taken shelf.old shelf.new) (schedule_of command.now) (option_map (λ v. v.items) t)) }
    ensures unread { (status : Status) → result ≡ Err (Unread.Said status) → (name : List ℕ) × (schedule_of command.now ≡ Some name) × IsUnreadAt name (2 ^ 26) (shelf_seen F.files F.faults F.taken shelf.old shelf.new) status }
{
    match command.schedule() {
        Some(name) => {
            let text = fetch_text(alloc, name, TEXT_LIMIT, shelf)?;
            Ok(Some(text))
        }
        None => Ok(None),
    }
}

/// The texts of a command's files. The file comes first, and after a file that was not read none is fetched.
pub(crate) fn fetch_texts<F: Shelf>(
    alloc: Global,
    command: &Command,
    shelf: &mut F,
) -> Result<Texts, Unread>
    ensures fetched { MayHaveFetched (Some command.now) (shelf_seen F.files F.faults F.taken shelf.old shelf.new) }
    ensures texts { IfOk result (λ t. AreRead command.now (shelf_seen F.files F.faults F.taken shelf.old shelf.new) t.text.items (option_map (λ v. v.items) t.schedule)) }
    ensures unread { (status : Status) → result ≡ Err (Unread.Said status) → IsUnread command.now (shelf_seen F.files F.faults F.taken shelf.old shelf.new) status }
{
    let text = match fetch_text(alloc, command.file(), limit(command), shelf) {
        Ok(text) => text,
        Err(unread) => return Err(unread),
    };
    match fetch_schedule(alloc, command, shelf) {
        Ok(schedule) => Ok(Texts { text, schedule }),
        Err(unread) => {
            drop(text);
            Err(unread)
        }
    }
}
