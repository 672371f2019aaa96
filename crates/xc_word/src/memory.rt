//! Segments of tagged words, and the accesses to one of them.

ghost use Rattle.std.specs.Prelude.{◌≡◌, ◌≤◌, ◌+◌, ◌↔◌, IsSome, OnOk, OnErr, IsErrOf, is_ok, is_some, replicate, slice_get};
ghost use Rattle.std.specs.Ordering.{nat_cmp};
ghost use Rattle.std.specs.FinMap as map;
ghost use Rattle.xc_word.specs.Cells.{cell_at, fresh};
ghost use Rattle.xc_word.specs.Table.{full_with, empty_with, on_cell, outcome, answer_of, left_by};
ghost use Rattle.xc_word.specs.InnerTable.{outcome_in, cells_left};
ghost use Rattle.xc_word.specs.Total.{total, words_of};

use std::alloc::Global;
use std::collections::BTreeMap;
use std::marker::Model;
use thiserror::Error;

/// A 64-bit value with no state, as a register holds it.
#[derive(Clone, Copy, Debug, PartialEq, Eq)]
pub struct Word(pub u64);

/// A value in memory, and whether the cell is full or empty. An empty cell keeps a value too.
#[derive(Clone, Copy, Debug, PartialEq, Eq)]
pub struct Cell {
    pub value: u64,
    pub full: bool,
}

impl Cell {
    /// A full cell.
    pub fn full(value: u64) -> Cell
        ensures { result ≡ full_with value }
    {
        Cell { value, full: true }
    }

    /// An empty cell, with the value that it keeps.
    pub fn empty(value: u64) -> Cell
        ensures { result ≡ empty_with value }
    {
        Cell { value, full: false }
    }
}

/// The cell of a segment at an offset, counted in cells from 0.
#[derive(Clone, Copy, Debug, PartialEq, Eq)]
pub struct Place {
    pub seg: u32,
    pub off: u32,
}

/// The access modes of Alverson and others, 1990, and purge: which state each waits for, and what it leaves.
#[derive(Clone, Copy, Debug, PartialEq, Eq)]
pub enum Kind {
    /// Reads whatever the state is, and changes nothing.
    ReadXx,
    /// Waits for full, reads and leaves the cell empty.
    ReadFe,
    /// Waits for full, reads and leaves the cell full.
    ReadFf,
    /// Writes whatever the state is, and leaves the cell full.
    WriteXf,
    /// Waits for empty, writes and leaves the cell full.
    WriteEf,
    /// Waits for full, writes and leaves the cell full.
    WriteFf,
    /// Leaves the cell empty with the value 0, whatever the state is.
    Purge,
    /// Fetch and add: waits for full, adds modulo 2^64, answers the old value and leaves the cell full.
    Add,
}

/// One access. The value is what a write writes and what an add adds; other kinds do not look at it.
#[derive(Clone, Copy, Debug, PartialEq, Eq)]
pub struct Access {
    pub kind: Kind,
    pub place: Place,
    pub value: u64,
}

/// What came of an access.
#[derive(Clone, Copy, Debug, PartialEq, Eq)]
pub enum Applied {
    /// It was made. A read answers the value, an add the old value, any other access 0.
    Done(u64),
    /// The cell is not in the state that the access waits for.
    Blocked,
    /// No live segment has the place.
    Bad,
}

/// The segment is not live.
#[derive(Clone, Copy, Debug, PartialEq, Eq, Error)]
#[error("the segment is not live")]
pub struct Dead;

/// Why a segment was not added.
#[derive(Clone, Copy, Debug, PartialEq, Eq, Error)]
pub enum AddFault {
    /// A segment with this number is live.
    #[error("a segment with this number is live")]
    Taken,
    /// The host's memory is used up.
    #[error("out of memory")]
    NoMemory,
}

/// What an access answers and leaves at a cell. None: it waits.
fn touched(kind: Kind, value: u64, cell: Cell) -> Option<(u64, Cell)>
    ensures { result ≡ on_cell kind value cell }
{
    match kind {
        Kind::ReadXx => Some((cell.value, cell)),
        Kind::ReadFe if cell.full => Some((cell.value, Cell::empty(cell.value))),
        Kind::ReadFf if cell.full => Some((cell.value, cell)),
        Kind::WriteXf => Some((0, Cell::full(value))),
        Kind::WriteEf if !cell.full => Some((0, Cell::full(value))),
        Kind::WriteFf if cell.full => Some((0, Cell::full(value))),
        Kind::Purge => Some((0, Cell::empty(0))),
        Kind::Add if cell.full => Some((cell.value, Cell::full(cell.value.wrapping_add(value)))),
        Kind::ReadFe | Kind::ReadFf | Kind::WriteEf | Kind::WriteFf | Kind::Add => None,
    }
}

/// The cell at an offset.
fn cell_of(cells: &[Cell], off: u32) -> Option<Cell>
    ensures { result ≡ slice_get cells.now off }
{
    cells.get(off as usize).copied()
}

/// Makes an access to the cells of its segment.
fn apply_in(cells: &mut Vec<Cell>, act: &Access) -> Applied
    ensures answer { result ≡ answer_of (outcome_in cells.old.items act.now) }
    ensures left { cells.new.items ≡ cells_left cells.old.items act.now.place.off (outcome_in cells.old.items act.now) }
{
    let at = act.place.off as usize;
    if at >= cells.len() {
        return Applied::Bad;
    }
    let Some((answer, next)) = touched(act.kind, act.value, cells[at]) else {
        return Applied::Blocked;
    };
    cells[at] = next;
    Applied::Done(answer)
}

/// The live segments, by their numbers.
#[derive(Drop)]
pub struct Memory {
    alloc: Global,
    segments: BTreeMap<u32, Vec<Cell>>,
}

impl Model for Memory {
    ghost use Rattle.std.specs.Prelude.{List, map as map_list};
    ghost use Rattle.std.specs.Ordering.{nat_cmp};
    ghost use Rattle.std.specs.FinMap as map;
    ghost use Rattle.xc_word.specs.Coding.{coded_segments};
    ghost use Rattle.xc_word.specs.declared.memory.Cell.{Cell};

    ghost Value = { map.FinMap nat_cmp (List Cell) };

    ghost coded = { coded_segments };

    ghost view = { λ a. map.from_entries (map_list (λ e. (e.0, e.1.items)) a.segments.entries) };
}

impl Memory {
    /// No segments.
    pub fn new(alloc: Global) -> Memory
        ensures { result ≡ map.empty }
    {
        Memory {
            alloc,
            segments: BTreeMap::new(alloc),
        }
    }

    /// The cell at a place. None: no live segment has the place.
    pub fn cell(&self, place: Place) -> Option<Cell>
        ensures { result ≡ cell_at self.now place }
    {
        match self.segments.get(&place.seg) {
            Some(cells) => cell_of(cells, place.off),
            None => None,
        }
    }

    /// Adds a segment of full cells with the value 0. No clause says when the host's memory suffices.
    pub fn add_segment(&mut self, seg: u32, cells: u32) -> Result<(), AddFault>
        requires { 1 ≤ cells }
        ensures taken { IsErrOf result AddFault.Taken ↔ IsSome (map.get self.old seg) }
        ensures added { OnOk result (self.new ≡ map.insert self.old seg (replicate cells fresh)) }
        ensures words { OnOk result (total self.new ≡ total self.old + cells) }
        ensures unchanged { OnErr result (self.new ≡ self.old) }
    {
        if self.segments.contains_key(&seg) {
            return Err(AddFault::Taken);
        }
        let Ok(row) = vec![in self.alloc; Cell::full(0); cells as usize] else {
            return Err(AddFault::NoMemory);
        };
        let Ok(_) = self.segments.insert(seg, row) else {
            return Err(AddFault::NoMemory);
        };
        Ok(())
    }

    /// Adds a segment of these cells. No clause says when the host's memory suffices.
    pub fn add_cells(&mut self, seg: u32, cells: Vec<Cell>) -> Result<(), AddFault>
        ensures taken { IsErrOf result AddFault.Taken ↔ IsSome (map.get self.old seg) }
        ensures added { OnOk result (self.new ≡ map.insert self.old seg cells.items) }
        ensures unchanged { OnErr result (self.new ≡ self.old) }
    {
        let live = self.segments.contains_key(&seg);
        if live {
            return Err(AddFault::Taken);
        }
        let Ok(_) = self.segments.insert(seg, cells) else {
            return Err(AddFault::NoMemory);
        };
        Ok(())
    }

    /// How many cells a segment has; 0 where it is not live.
    pub fn words(&self, seg: u32) -> usize
        ensures { result ≡ words_of self.now seg }
    {
        match self.segments.get(&seg) {
            Some(cells) => cells.len(),
            None => 0,
        }
    }

    /// Takes a segment out; its number may be used again.
    pub fn free(&mut self, seg: u32) -> Result<(), Dead>
        ensures live { is_ok result ≡ is_some (map.get self.old seg) }
        ensures removed { self.new ≡ map.remove self.old seg }
        ensures words { total self.new + words_of self.old seg ≡ total self.old }
        ensures unchanged { OnErr result (self.new ≡ self.old) }
    {
        let removed = self.segments.remove(&seg);
        if removed.is_some() { Ok(()) } else { Err(Dead) }
    }

    /// Makes one access. It takes no memory of the host.
    pub fn apply(&mut self, act: &Access) -> Applied
        ensures answer { result ≡ answer_of (outcome self.old act.now) }
        ensures left { self.new ≡ left_by self.old act.now.place (outcome self.old act.now) }
        ensures words { total self.new ≡ total self.old }
        ensures bad { result ≡ Applied.Bad → self.new ≡ self.old }
        ensures blocked { result ≡ Applied.Blocked → self.new ≡ self.old }
    {
        match self.segments.get_mut(&act.place.seg) {
            Some(cells) => apply_in(cells, act),
            None => Applied::Bad,
        }
    }
}
