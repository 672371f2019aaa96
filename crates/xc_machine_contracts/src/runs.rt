ghost use Rattle.xc_machine.specs.Machines.{state_of, code_of, limits_of, steps_of};
ghost use Rattle.xc_machine.specs.Limits.{Steps};
ghost use Rattle.xc_machine.specs.Runs.{RunsTo};

use xc_machine::{End, Machine, Stepped};
use xc_sched::Chooser;

pub fn run<C: Chooser>(machine: &mut Machine, chooser: &mut C, limit: u64) -> End
    ensures { RunsTo C.picks (code_of machine.old) (limits_of machine.old) limit chooser.old (state_of machine.old) (steps_of machine.old) chooser.new (state_of machine.new) (steps_of machine.new) result }
{
    machine.run(chooser, limit)
}

pub fn step(machine: &mut Machine, s: u32) -> Stepped
    ensures { Steps (code_of machine.old) (limits_of machine.old) s result (state_of machine.old) (state_of machine.new) }
{
    machine.step(s)
}
