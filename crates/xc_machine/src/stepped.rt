//! What comes of a step.

use xc_isa::TrapKind;

/// What came of a step. Only `Went` changes the machine.
#[derive(Clone, Copy)]
pub enum Stepped {
    Went,
    /// The slot has no stream, or its stream waits for a cell.
    NotReady,
    Trap(TrapKind),
    /// A new segment would pass the limit on live words, or all numbers of segments are used up.
    WordsFull { live: u64, asked: u64 },
    /// What is printed would pass the limit on output.
    OutFull { length: u64, piece: u64 },
    /// The host's memory is used up.
    NoMemory,
}
