//! What the accesses of instructions are of.

ghost use Rattle.std.specs.Prelude.{◌≡◌, Some};
ghost use Rattle.xc_isa.specs.Effects.{load_kind, store_kind};
ghost use Rattle.xc_machine.specs.InnerShows.{regs_at};
ghost use Rattle.xc_machine.specs.Targets.{target_of, admits as admits_at};

use xc_isa::{Instr, LoadKind, Reg, StoreKind};
use xc_machine_slots::Stream;
use xc_word::{Cell, Kind};

/// What an access is of: the cell at an offset from where a pointer points, and the register that gets the answer.
#[derive(Clone, Copy)]
pub(crate) struct Target {
    pub(crate) kind: Kind,
    pub(crate) pointer: u64,
    pub(crate) off: u32,
    pub(crate) value: u64,
    pub(crate) to: Option<Reg>,
}

fn kind_of_load(kind: LoadKind) -> Kind
    ensures { result ≡ load_kind kind }
{
    match kind {
        LoadKind::Ld => Kind::ReadXx,
        LoadKind::Ldfe => Kind::ReadFe,
        LoadKind::Ldff => Kind::ReadFf,
    }
}

fn kind_of_store(kind: StoreKind) -> Kind
    ensures { result ≡ store_kind kind }
{
    match kind {
        StoreKind::St => Kind::WriteXf,
        StoreKind::Stef => Kind::WriteEf,
        StoreKind::Stff => Kind::WriteFf,
    }
}

/// Whether an access of a kind need not wait at a cell.
pub(crate) fn admits(kind: Kind, cell: Option<Cell>) -> bool
    ensures { result ≡ admits_at kind cell }
{
    let Some(cell) = cell else {
        return true;
    };
    match kind {
        Kind::ReadXx | Kind::WriteXf | Kind::Purge => true,
        Kind::ReadFe | Kind::ReadFf | Kind::WriteFf | Kind::Add => cell.full,
        Kind::WriteEf => !cell.full,
    }
}

/// The access that an instruction of a stream makes. None: it makes none.
pub(crate) fn target_in(stream: &Stream, instr: Instr) -> Option<Target>
    ensures { result ≡ target_of (regs_at (Some stream.now)) instr }
{
    let (kind, a, off, value, to) = match instr {
        Instr::Load(kind, d, a, off) => (kind_of_load(kind), a, off, 0, Some(d)),
        Instr::Store(kind, b, a, off) => (kind_of_store(kind), a, off, stream.read(b), None),
        Instr::Purge(a, off) => (Kind::Purge, a, off, 0, None),
        Instr::Fadd(d, a, off, b) => (Kind::Add, a, off, stream.read(b), Some(d)),
        _ => return None,
    };
    Some(Target {
        kind,
        pointer: stream.read(a),
        off,
        value,
        to,
    })
}
