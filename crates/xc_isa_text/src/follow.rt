//! Which runs and marks may follow the last one.

ghost use Rattle.std.specs.Prelude.{◌≡◌, None};
ghost use Rattle.xc_isa_text.specs.InnerReadings.{last_of, may_follow, differ as runs_differ, in_order};

use xc_isa::{LoopMark, Run};

/// Whether the runs have different cells.
fn differ(a: &Run, b: &Run) -> bool
    ensures { result ≡ runs_differ a.now b.now }
{
    a.cell.value != b.cell.value || a.cell.full != b.cell.full
}

/// Whether the run has other cells than the last one.
pub(crate) fn run_may_follow(runs: &[Run], run: &Run) -> bool
    ensures { result ≡ may_follow runs_differ (last_of None runs.now) run.now }
{
    match runs.last() {
        None => true,
        Some(last) => differ(last, run),
    }
}

/// Whether the id of the mark is not below that of the last one.
pub(crate) fn mark_may_follow(marks: &[LoopMark], mark: &LoopMark) -> bool
    ensures { result ≡ may_follow in_order (last_of None marks.now) mark.now }
{
    match marks.last() {
        None => true,
        Some(last) => last.id <= mark.id,
    }
}
