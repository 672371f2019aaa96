//! Runs of steps of one stream.

ghost use Rattle.std.specs.Prelude.{◌≡◌, ◌≤◌, length, drop};
ghost use Rattle.xc_sched.specs.Runs.{is_other as is_other_stream};
ghost use Rattle.xc_sched.specs.InnerRuns.{last_of};

/// The processors that a schedule may name are below this.
pub(crate) const PROCESSORS: u32 = 64;

/// The slots of a processor.
pub(crate) const SLOTS: u32 = 128;

/// The streams that a schedule may name are below this: slot i of processor q has the number 128 * q + i.
pub(crate) const STREAMS: u32 = PROCESSORS * SLOTS;

/// The most steps of one run.
pub(crate) const STEPS: u32 = 1 << 31;

/// The most runs of a schedule, so that a `u32` numbers the lines of its text and the one after.
pub(crate) const RUNS: usize = (1 << 32) - 3;

/// So many steps of one stream.
#[derive(Clone, Copy, Debug)]
pub(crate) struct Run {
    pub(crate) stream: u32,
    pub(crate) count: u32,
}

/// Whether a step of this stream begins a new run.
pub(crate) fn is_other(runs: &[Run], stream: u32) -> bool
    ensures { result ≡ is_other_stream (last_of None runs.now) stream }
{
    match runs.last() {
        None => true,
        Some(last) => last.stream != stream,
    }
}

/// The runs from one on.
pub(crate) fn rest(runs: &[Run], at: usize) -> &[Run]
    requires { at ≤ length runs.now }
    ensures { result.now ≡ drop at runs.now }
{
    &runs[at..]
}
