//! The top call.

ghost use Rattle.std.specs.Prelude.{◌≡◌, Some, None, map, string_bytes, IfOk, OnErr};
ghost use Rattle.xc_top_words.specs.Words.{command_of};
ghost use Rattle.xc_top.specs.Seen.{shelf_seen, sink_seen, Puts};
ghost use Rattle.xc_tree.specs.declared.tree.Tree.{Tree};
ghost use Rattle.xc_meaning_trees.specs.Trees.{program_of};
ghost use Rattle.xc_top.specs.Answers.{MayHaveFetched, Cause, Finishes, Writes, Tells, CanRun, IsRunToEnd};

use crate::fetch::{Unread, fetch_texts};
use crate::judge::{Plan, judge, say};
use crate::lines::NO_MEMORY;
use crate::status::{Shown, Status};
use std::alloc::{AllocError, Global};
use xc_edge::{Shelf, Sink, put_all};
use xc_top_words::{Command, WordsFault, read_command};

/// Does what the words say, over a shelf of files and two sinks. Words are those after the program's name. A source is read up
/// to 1 MiB, assembly and a schedule up to 64 MiB; all memory is taken before the first put.
pub fn xmtc<F: Shelf, O: Sink, E: Sink>(
    alloc: Global,
    words: &[String],
    shelf: &mut F,
    out: &mut O,
    err: &mut E,
) -> Status
    ensures tells { Tells (command_of (map string_bytes words.now)) (shelf_seen F.files F.faults F.taken shelf.old shelf.new) (sink_seen O.written O.faults out.old out.new) (sink_seen E.written E.faults err.old err.new) result }
    ensures usage { command_of (map string_bytes words.now) ≡ None → shelf.new ≡ shelf.old }
    ensures completes { (tree : Tree) → CanRun (command_of (map string_bytes words.now)) (shelf_seen F.files F.faults F.taken shelf.old shelf.new) (sink_seen O.written O.faults out.old out.new) (sink_seen E.written E.faults err.old err.new) tree → IsRunToEnd (program_of tree) (sink_seen O.written O.faults out.old out.new) result }
{
    match plan_of_words(alloc, words, shelf) {
        Ok(plan) => write_plan(plan, out, err),
        Err(_) => {
            put_some(err, NO_MEMORY.as_bytes());
            Status::NoMemory
        }
    }
}

/// What there is to say and to write of these words.
fn plan_of_words<F: Shelf>(
    alloc: Global,
    words: &[String],
    shelf: &mut F,
) -> Result<Plan, AllocError>
    ensures plan { IfOk result (λ p. Cause (command_of (map string_bytes words.now)) (shelf_seen F.files F.faults F.taken shelf.old shelf.new) p.status p.out.items p.err.items) }
    ensures fetched { OnErr result (MayHaveFetched (command_of (map string_bytes words.now)) (shelf_seen F.files F.faults F.taken shelf.old shelf.new)) }
    ensures usage { command_of (map string_bytes words.now) ≡ None → shelf.new ≡ shelf.old }
{
    match read_command(alloc, words) {
        Ok(command) => {
            let plan = plan_of(alloc, &command, shelf);
            drop(command);
            plan
        }
        Err(WordsFault::Usage) => say(alloc, Status::Usage),
        Err(WordsFault::NoMemory) => Err(AllocError),
    }
}

/// The same of a command.
fn plan_of<F: Shelf>(alloc: Global, command: &Command, shelf: &mut F) -> Result<Plan, AllocError>
    ensures plan { IfOk result (λ p. Cause (Some command.now) (shelf_seen F.files F.faults F.taken shelf.old shelf.new) p.status p.out.items p.err.items) }
    ensures fetched { MayHaveFetched (Some command.now) (shelf_seen F.files F.faults F.taken shelf.old shelf.new) }
{
    match fetch_texts(alloc, command, shelf) {
        Ok(texts) => {
            let plan = judge(alloc, command, texts.text.as_slice(), &texts.schedule);
            drop(texts);
            plan
        }
        Err(Unread::Said(status)) => say(alloc, status),
        Err(Unread::NoMemory) => Err(AllocError),
    }
}

/// Puts a text; nothing depends on whether it was put.
fn put_some<S: Sink>(sink: &mut S, text: &[u8])
    ensures { Puts text.now (sink_seen S.written S.faults sink.old sink.new) }
{
    let _ = put_all(sink, text);
}

/// Writes to both sinks where the work is done.
fn finish<O: Sink, E: Sink>(
    shown: Shown,
    text: &[u8],
    line: &[u8],
    out: &mut O,
    err: &mut E,
) -> Status
    ensures { Finishes shown text.now line.now (sink_seen O.written O.faults out.old out.new) (sink_seen E.written E.faults err.old err.new) result }
{
    if put_all(out, text).is_err() {
        return Status::WriteFault;
    }
    match put_all(err, line) {
        Ok(()) => Status::Ok(shown),
        Err(_) => Status::WriteFault,
    }
}

/// Writes to both sinks.
fn write_texts<O: Sink, E: Sink>(
    status: Status,
    text: &[u8],
    line: &[u8],
    out: &mut O,
    err: &mut E,
) -> Status
    ensures { Writes status text.now line.now (sink_seen O.written O.faults out.old out.new) (sink_seen E.written E.faults err.old err.new) result }
{
    match status {
        Status::Ok(shown) => finish(shown, text, line, out, err),
        other => {
            put_some(out, text);
            put_some(err, line);
            other
        }
    }
}

fn write_plan<O: Sink, E: Sink>(plan: Plan, out: &mut O, err: &mut E) -> Status
    ensures { Writes plan.status plan.out.items plan.err.items (sink_seen O.written O.faults out.old out.new) (sink_seen E.written E.faults err.old err.new) result }
{
    let Plan {
        status,
        out: text,
        err: line,
    } = plan;
    let answer = write_texts(status, text.as_slice(), line.as_slice(), out, err);
    drop((text, line));
    answer
}
