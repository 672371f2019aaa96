//! What the pragmas before a loop set together.

ghost use Rattle.std.specs.Prelude.{◌≡◌, ◌≤◌, ◌++◌, Bool, List, length, drop, map, IfOk, OnOk};
ghost use Rattle.xc_tree.specs.declared.pragmas.Schedule.TheVariants.{Block};
ghost use Rattle.xc_type_pragmas.specs.Set.{is_serial, is_streams, is_schedule, says, is_named, is_pointer, marked, mark_of, given_of, given_in, union, noted, both_roots, pointer_root, nodep_of, noalias_of, nodep_by, noalias_by, streams_by, streams_after, schedule_by, schedule_after, pragmas_of, settings_of};

use crate::read::Pragma;
use bitflags::Flags;
use sqlite_items::Items;
use std::alloc::{AllocError, Global};
use xc_text_place::Span;
use xc_tree::{Marks, Pragmas, Root, Schedule};

/// What the name of a pragma stands for, where the loop stands.
#[derive(Clone, Copy, PartialEq, Eq)]
pub enum Named {
    /// There is no name, or it is not in scope, or a function's.
    Nothing,
    /// An object that is no pointer.
    Object(Root),
    /// A pointer variable, by itself and as what it points to.
    Pointer { object: Root, pointer: Root },
}

/// A pragma before a loop.
#[derive(Clone, Copy, PartialEq, Eq)]
pub struct Said {
    pub span: Span,
    pub pragma: Pragma,
    pub named: Named,
}

/// What the pragmas before a loop set, and the places of those without effect.
#[derive(Drop)]
pub struct Settings {
    pub pragmas: Pragmas,
    pub notes: Items<Span>,
}

fn is_serial(pragma: Pragma) -> bool
    ensures { result ≡ is_serial pragma }
{
    matches!(pragma, Pragma::Serial)
}

fn is_streams(pragma: Pragma) -> bool
    ensures { result ≡ is_streams pragma }
{
    matches!(pragma, Pragma::Streams(_))
}

fn is_schedule(pragma: Pragma) -> bool
    ensures { result ≡ is_schedule pragma }
{
    matches!(pragma, Pragma::Dealt(_))
}

fn is_named(named: Named) -> bool
    ensures { result ≡ is_named named }
{
    !matches!(named, Named::Nothing)
}

fn is_pointer(named: Named) -> bool
    ensures { result ≡ is_pointer named }
{
    matches!(named, Named::Pointer { .. })
}

fn says_serial(all: &[Said]) -> bool
    ensures { result ≡ says is_serial all.now }
{
    all.iter().any(|s| is_serial(s.pragma))
}

fn says_streams(all: &[Said]) -> bool
    ensures { result ≡ says is_streams all.now }
{
    all.iter().any(|s| is_streams(s.pragma))
}

fn says_schedule(all: &[Said]) -> bool
    ensures { result ≡ says is_schedule all.now }
{
    all.iter().any(|s| is_schedule(s.pragma))
}

// The mark, where the pragma has an effect.
fn marked(has_effect: bool, mark: Marks) -> Marks
    ensures { result ≡ marked has_effect mark.0 }
{
    if has_effect { mark } else { Marks::empty() }
}

// The mark of a pragma, none where it has no effect.
fn mark_of(serial: bool, later: &[Said], s: &Said) -> Marks
    ensures { result ≡ mark_of serial later.now s.now }
{
    match s.pragma {
        Pragma::Parallel => marked(!serial, Marks::PARALLEL),
        Pragma::Serial => Marks::SERIAL,
        Pragma::Nodep(_) => marked(is_named(s.named), Marks::NODEP),
        Pragma::Noalias(_) => marked(is_pointer(s.named), Marks::NOALIAS),
        Pragma::Streams(_) => marked(!says_streams(later), Marks::STREAMS),
        Pragma::Dealt(_) => marked(!says_schedule(later), Marks::SCHEDULE),
        Pragma::Other => Marks::empty(),
    }
}

fn given_of(alloc: Global, all: &[Said]) -> Result<Items<(Span, Marks)>, AllocError>
    ensures { IfOk result (λ r. r ≡ given_of all.now) }
{
    let serial = says_serial(all);
    let mut given = Items::new(alloc);
    let mut rest = all;
    'each: while let [s, later @ ..] = rest {
        given.push((s.span, mark_of(serial, later, s)))?;
        rest = later;
    }
    Ok(given)
}

fn union(given: &[(Span, Marks)]) -> Marks
    ensures { result.0 ≡ union 0 given.now }
{
    let mut marks = Marks::empty();
    for g in given {
        marks.insert(g.1);
    }
    marks
}

fn noted(alloc: Global, given: &[(Span, Marks)]) -> Result<Items<Span>, AllocError>
    ensures { IfOk result (λ r. r ≡ noted given.now) }
{
    let mut notes = Items::new(alloc);
    for g in given {
        if g.1.is_empty() {
            notes.push(g.0)?;
        }
    }
    Ok(notes)
}

fn push_nodep(roots: &mut Items<Root>, s: &Said) -> Result<(), AllocError>
    ensures { OnOk result (roots.new ≡ roots.old ++ nodep_by s.now.named s.now.pragma) }
{
    match (s.pragma, s.named) {
        (Pragma::Nodep(_), Named::Object(root)) => {
            roots.push(root)?;
            Ok(())
        }
        (Pragma::Nodep(_), Named::Pointer { object, pointer }) => {
            roots.push(object)?;
            roots.push(pointer)?;
            Ok(())
        }
        _ => Ok(()),
    }
}

fn push_noalias(roots: &mut Items<Root>, s: &Said) -> Result<(), AllocError>
    ensures { OnOk result (roots.new ≡ roots.old ++ noalias_by s.now.named s.now.pragma) }
{
    match (s.pragma, s.named) {
        (Pragma::Noalias(_), Named::Pointer { object: _, pointer }) => {
            roots.push(pointer)?;
            Ok(())
        }
        _ => Ok(()),
    }
}

fn nodep_of(alloc: Global, all: &[Said]) -> Result<Items<Root>, AllocError>
    ensures { IfOk result (λ r. r ≡ nodep_of all.now) }
{
    let mut roots = Items::new(alloc);
    for s in all {
        push_nodep(&mut roots, s)?;
    }
    Ok(roots)
}

fn noalias_of(alloc: Global, all: &[Said]) -> Result<Items<Root>, AllocError>
    ensures { IfOk result (λ r. r ≡ noalias_of all.now) }
{
    let mut roots = Items::new(alloc);
    for s in all {
        push_noalias(&mut roots, s)?;
    }
    Ok(roots)
}

fn streams_of(all: &[Said]) -> u32
    ensures { result ≡ streams_after 8 all.now }
{
    let mut streams = 8;
    for s in all {
        if let Pragma::Streams(k) = s.pragma {
            streams = k;
        }
    }
    streams
}

fn schedule_of(all: &[Said]) -> Schedule
    ensures { result ≡ schedule_after Block all.now }
{
    let mut schedule = Schedule::Block;
    for s in all {
        if let Pragma::Dealt(dealt) = s.pragma {
            schedule = dealt;
        }
    }
    schedule
}

/// What the pragmas before a loop set, given in the order of the text, as far as it is known before the loop is judged:
/// `given` has each with its mark, which is empty where the pragma has no effect whatever the loop is, and `notes` the
/// places of these. The time is linear in the pragmas.
pub fn loop_settings(alloc: Global, all: &[Said]) -> Result<Settings, AllocError>
    ensures { IfOk result (λ r. r ≡ settings_of all.now) }
{
    let given = given_of(alloc, all)?;
    let notes = noted(alloc, given.as_slice())?;
    let nodep = nodep_of(alloc, all)?;
    let noalias = noalias_of(alloc, all)?;
    let pragmas = Pragmas {
        marks: union(given.as_slice()),
        nodep,
        noalias,
        streams: streams_of(all),
        schedule: schedule_of(all),
        given,
    };
    Ok(Settings { pragmas, notes })
}
