//! A small code that meets what the theorem asks.

ghost use Rattle.std.specs.Prelude.{◌≡◌, [], IfOk, OnOk};
ghost use Rattle.xc_isa_streams.specs.Promises.{RunsStand};
ghost use Rattle.xc_isa_streams.specs.TwoStreams.{by_frame, two_streams_code, EndsWithSeven};
ghost use Rattle.xc_isa_streams.specs.InnerTwoStreams.{one_global};

use sqlite_items::Items;
use std::alloc::{AllocError, Global};
use xc_hold::kept;
use xc_isa::{Code, Emit, Instr, LoadKind, Reg, Run, StoreKind};
use xc_word::Cell;

/// One global, of one cell.
fn global(alloc: Global) -> Result<Items<Items<Run>>, AllocError>
    ensures { IfOk result (λ globals. globals ≡ one_global) }
{
    let mut cells = Items::new(alloc);
    cells.push(Run {
        count: 1,
        cell: Cell::full(0),
    })?;
    let mut globals = Items::new(alloc);
    globals.push(cells)?;
    Ok(globals)
}

/// The first stream starts another one, and both go on in the same way: through a frame of their own to the global.
fn emit_instructions(code: &mut Emit) -> Result<(), AllocError>
    requires { code.old ≡ [] }
    ensures { OnOk result (code.new ≡ two_streams_code) }
{
    let argument = Reg::new(1);
    let word = Reg::new(2);
    let frame = Reg::new(23);
    let value = Reg::new(24);
    code.push(Instr::Li(argument, 7))?;
    let create = code.push(Instr::Create(word, argument, 0))?;
    let body = code.push(Instr::Li(word, 1))?;
    code.patch(create, body);
    code.push(Instr::NewSeg(frame, word))?;
    code.push(Instr::Store(StoreKind::St, argument, frame, 0))?;
    code.push(Instr::Load(LoadKind::Ld, value, frame, 0))?;
    code.push(Instr::Free(frame))?;
    code.push(Instr::Li(word, 1 << 32))?;
    code.push(Instr::Store(StoreKind::St, value, word, 0))?;
    code.push(Instr::Quit)?;
    Ok(())
}

fn instructions(alloc: Global) -> Result<Items<Instr>, AllocError>
    ensures { IfOk result (λ instrs. instrs ≡ two_streams_code) }
{
    let mut code = Emit::new(alloc);
    let done = emit_instructions(&mut code);
    let ((), code) = kept(done, code)?;
    Ok(code.finish())
}

/// Two streams, each with a frame of its own, write one global. The frames are told by r23, and no stream sees the other's.
pub fn two_streams(alloc: Global) -> Result<Code, AllocError>
    ensures code { IfOk result (λ code. code.instrs ≡ two_streams_code) }
    ensures runs { IfOk result (λ code. RunsStand by_frame code) }
    ensures ends { IfOk result (λ code. EndsWithSeven code) }
{
    Ok(Code {
        globals: global(alloc)?,
        formats: Items::new(alloc),
        loops: Items::new(alloc),
        instrs: instructions(alloc)?,
    })
}
