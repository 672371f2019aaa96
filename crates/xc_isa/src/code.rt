//! Code, whole and in the making.

ghost use Rattle.xc_isa.specs.Texts.{HasText};

use crate::instr::{Instr, Reg};
use sqlite_items::Items;
use xc_word::Cell;

/// So many cells alike.
#[derive(Clone, Copy)]
pub struct Run {
    pub count: u32,
    pub cell: Cell,
}

/// Where a parallel loop stands: its id, and the positions of its entry, its worker, its serial version and its exit.
#[derive(Clone, Copy)]
pub struct LoopMark {
    pub id: u32,
    pub start: u32,
    pub worker: u32,
    pub serial: u32,
    pub after: u32,
}

/// Where the value of a local stands: in a register, or in the cell at an offset of the frame that r23 points to.
#[derive(Clone, Copy)]
pub enum Home {
    Reg(Reg),
    Frame(u32),
}

/// Code, with the cells of its globals, its formats and the marks of its loops. It has a text as assembly.
#[derive(Drop)]
pub struct Code {
    /// The cells of each global, in runs.
    pub globals: Items<Items<Run>>,
    pub formats: Items<Items<u8>>,
    pub loops: Items<LoopMark>,
    pub instrs: Items<Instr>,
    ghost has_text: { HasText globals formats loops instrs },
}
