//! Instructions, and the machine that runs them as a definition: streams over one memory of tagged words, after Alverson and
//! others, The Tera Computer System, 1990.
#![tactic(auto)]

mod code;
mod emit;
mod instr;

pub use code::{Code, Home, LoopMark, Run};
pub use emit::Emit;
pub use instr::{BinaryOp, DivideOp, Instr, LoadKind, Reg, StoreKind, Test, TrapKind};
