//! Memory and output, within their limits.

ghost use Rattle.std.specs.Prelude.{◌≡◌, ◌<◌, ◌≤◌, ◌+◌, ◌-◌, ◌^◌, [], ℕ, length, slice_get};
ghost use Rattle.xc_word.specs.declared.memory.Cell.{Cell};
ghost use Rattle.xc_meaning_world.specs.World.{On, Reach, serve};
ghost use Rattle.xc_text_format.specs.Pieces.{text_of};
ghost use Rattle.xc_isa.specs.Machine.{words_up_to};
ghost use Rattle.xc_machine.specs.Shows.{segs_in, world_in};

use std::alloc::Global;
use xc_word::{Access, Applied, Cell, Memory, Place};

/// The segments and the output, the number of the newest segment, how many words are live, and the most live words and bytes of
/// output.
#[derive(Drop)]
pub(crate) struct Store {
    alloc: Global,
    memory: Memory,
    output: Vec<u8>,
    piece: Vec<u8>,
    last: u32,
    live: u64,
    words: u64,
    out: u64,
    ghost numbered: { last < 2 ^ 32 - 1 },
    ghost none_beyond: { (g : ℕ) → last < g → segs_in memory g ≡ [] },
    ghost counted: { live ≡ words_up_to (segs_in memory) last },
    ghost words_within: { live ≤ words },
    ghost few_words: { words ≤ 2 ^ 24 },
    ghost out_within: { length output.items ≤ out },
    ghost little_out: { out ≤ 2 ^ 20 },
}

/// The number of the last segment that there may be.
const LAST_SEGMENT: u32 = u32::MAX - 1;

/// What came of a new segment.
#[derive(Clone, Copy)]
pub(crate) enum Added {
    /// It has this number.
    At(u32),
    /// The live words would pass their limit, or all numbers are used up.
    Full,
    NoMemory,
}

/// What came of a print.
#[derive(Clone, Copy)]
pub(crate) enum Printed {
    Done,
    /// So many more bytes would pass the limit.
    Full(u64),
    NoMemory,
}

impl Store {
    ghost use Rattle.xc_machine.specs.Stores.{shown};
    ghost use Rattle.xc_machine.specs.InnerStores.{Serves, SameNumbers, Adds, Frees, Prints};

    /// Memory with nothing printed.
    pub(crate) fn starting(
        alloc: Global,
        memory: Memory,
        last: u32,
        live: u64,
        words: u64,
        out: u64,
    ) -> Store
        requires numbered { last < 2 ^ 32 - 1 }
        requires none_beyond { (g : ℕ) → last < g → segs_in memory g ≡ [] }
        requires counted { live ≡ words_up_to (segs_in memory) last }
        requires words_within { live ≤ words }
        requires few_words { words ≤ 2 ^ 24 }
        requires little_out { out ≤ 2 ^ 20 }
        ensures shown { shown result ≡ world_in memory [] }
        ensures last { result.last ≡ last }
        ensures words { result.words ≡ words }
        ensures out { result.out ≡ out }
    {
        Store {
            alloc,
            memory,
            output: Vec::new(alloc),
            piece: Vec::new(alloc),
            last,
            live,
            words,
            out,
        }
    }

    /// Makes an access.
    pub(crate) fn touch(&mut self, act: &Access) -> Applied
        ensures served { Serves result (shown self.old) (shown self.new) (serve (On (Reach act.now)) 0 (shown self.old)) }
        ensures numbers { SameNumbers self.old self.new }
    {
        self.memory.apply(act)
    }

    /// Adds a segment of cells that are full and 0.
    pub(crate) fn add(&mut self, cells: u64) -> Added
        requires { 1 ≤ cells }
        ensures { Adds result cells self.old self.new }
    {
        if cells > self.words - self.live || self.last >= LAST_SEGMENT {
            return Added::Full;
        }
        let number = self.last + 1;
        match self.memory.add_segment(number, cells as u32) {
            Ok(()) => {
                self.last = number;
                self.live += cells;
                Added::At(number)
            }
            Err(_) => Added::NoMemory,
        }
    }

    /// Frees a segment, and answers whether it was there.
    pub(crate) fn free(&mut self, seg: u32) -> bool
        ensures { Frees result seg self.old self.new }
    {
        let words = self.memory.words(seg);
        if words == 0 {
            return false;
        }
        let _ = self.memory.free(seg);
        self.live -= words as u64;
        true
    }

    /// Prints values by a format.
    pub(crate) fn print(&mut self, format: &[u8], values: &[u64]) -> Printed
        ensures { Prints result (text_of format.now values.now) self.old self.new }
    {
        self.piece.clear();
        if xc_text_format::print(&mut self.piece, format, values).is_err() {
            return Printed::NoMemory;
        }
        let length = self.piece.len() as u64;
        if length > self.out - self.output.len() as u64 {
            return Printed::Full(length);
        }
        if self
            .output
            .extend_from_slice(self.piece.as_slice())
            .is_err()
        {
            return Printed::NoMemory;
        }
        Printed::Done
    }

    /// The cell at a place. None: no live segment has the place.
    pub(crate) fn cell(&self, place: Place) -> Option<Cell>
        ensures { result ≡ slice_get ((shown self.now).segs place.seg) place.off }
    {
        self.memory.cell(place)
    }

    /// What has been printed.
    pub(crate) fn output(&self) -> &[u8]
        ensures { result.now ≡ (shown self.now).out }
    {
        self.output.as_slice()
    }

    /// The number of live words.
    pub(crate) fn live(&self) -> u64
        ensures { result ≡ self.now.live }
    {
        self.live
    }
}
