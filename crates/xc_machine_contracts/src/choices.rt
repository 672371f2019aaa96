ghost use Rattle.std.specs.Prelude.{◌≡◌, ℕ, List, IfOk, slice_get};
ghost use Rattle.xc_sched.specs.Choices.{PicksInTurn, PicksBySeed, PicksNext};
ghost use Rattle.xc_sched.specs.Runs.{Spells, IsRead};
ghost use Rattle.xc_sched.specs.Streams.{streams_of};
ghost use Rattle.xc_text_lines.specs.Lines.{HasFewLines};

use std::alloc::{AllocError, Global};
use xc_sched::{
    Chooser, Ready, Recorded, RoundRobin, SchedFault, Seeded, print_schedule, read_schedule,
};

pub fn nth(ready: &Ready, k: u32) -> Option<u32>
    ensures { result ≡ slice_get (streams_of ready.now) k }
{
    ready.nth(k)
}

pub fn in_turn(turns: &mut RoundRobin, ready: &Ready) -> Option<u32>
    ensures { PicksInTurn turns.old (streams_of ready.now) result turns.new }
{
    turns.next(ready)
}

pub fn by_seed(seeded: &mut Seeded, ready: &Ready) -> Option<u32>
    ensures { PicksBySeed seeded.old (streams_of ready.now) result seeded.new }
{
    seeded.next(ready)
}

pub fn by_record(steps: &mut Recorded, ready: &Ready) -> Option<u32>
    ensures { PicksNext steps.old (streams_of ready.now) result steps.new }
{
    steps.next(ready)
}

pub fn printed(alloc: Global, steps: &Recorded) -> Result<Vec<u8>, AllocError>
    ensures { IfOk result (λ v. Spells v.items steps.now) }
{
    print_schedule(alloc, steps)
}

/// The steps of a schedule's text, printed.
pub fn printed_again(alloc: Global, text: &[u8]) -> Result<Vec<u8>, SchedFault>
    requires { HasFewLines text.now }
    ensures { IfOk result (λ v. (steps : List ℕ) × IsRead text.now steps × Spells v.items steps) }
{
    let steps = read_schedule(alloc, text)?;
    let printed = print_schedule(alloc, &steps);
    printed.map_err(|_| SchedFault::NoMemory)
}
