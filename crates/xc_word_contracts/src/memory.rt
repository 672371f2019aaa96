ghost use Rattle.std.specs.Prelude.{◌≡◌, ◌≤◌, ◌↔◌, IsSome, OnOk, OnErr, IsErrOf, is_ok, is_some, replicate};
ghost use Rattle.std.specs.FinMap as map;
ghost use Rattle.xc_word.specs.Cells.{fresh};
ghost use Rattle.xc_word.specs.Table.{outcome, answer_of, left_by};

use xc_word::{Access, AddFault, Applied, Dead, Memory};

pub fn access(memory: &mut Memory, act: &Access) -> Applied
    ensures answer { result ≡ answer_of (outcome memory.old act.now) }
    ensures left { memory.new ≡ left_by memory.old act.now.place (outcome memory.old act.now) }
{
    memory.apply(act)
}

pub fn add(memory: &mut Memory, seg: u32, cells: u32) -> Result<(), AddFault>
    requires { 1 ≤ cells }
    ensures taken { IsErrOf result AddFault.Taken ↔ IsSome (map.get memory.old seg) }
    ensures added { OnOk result (memory.new ≡ map.insert memory.old seg (replicate cells fresh)) }
    ensures unchanged { OnErr result (memory.new ≡ memory.old) }
{
    memory.add_segment(seg, cells)
}

pub fn free(memory: &mut Memory, seg: u32) -> Result<(), Dead>
    ensures live { is_ok result ≡ is_some (map.get memory.old seg) }
    ensures removed { memory.new ≡ map.remove memory.old seg }
{
    memory.free(seg)
}
