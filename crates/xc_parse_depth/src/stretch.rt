//! Stretches, and the first place at which too many of them stand.

ghost use Rattle.std.specs.Prelude.{◌≡◌, ℕ, ◌+◌, ◌≤◌, ◌<◌, ◌^◌, All, IfOk, length};
ghost use Rattle.xc_parse_depth.specs.Depths.{IsFirstDeeper};
ghost use Rattle.xc_parse_depth.specs.InnerDepths.{Tallied};

use std::alloc::{AllocError, Global};

/// The places from `first` up to `end`.
#[derive(Clone, Copy)]
pub struct Stretch {
    pub first: u32,
    pub end: u32,
}

/// How many stretches begin at each place, and how many end there.
#[derive(Drop)]
struct Edges {
    begins: Vec<usize>,
    ends: Vec<usize>,
}

/// The first place below `count` at which more than `limit` of the stretches stand. Needs time and memory linear in
/// `count` and in their number.
pub fn first_deeper(
    alloc: Global,
    stretches: &[Stretch],
    count: usize,
    limit: usize,
) -> Result<Option<usize>, AllocError>
    requires few { count < 2 ^ 32 }
    requires fits { length stretches.now < 2 ^ 63 }
    requires within { All (λ s. (s.first ≤ s.end) × (s.end ≤ count)) stretches.now }
    ensures { IfOk result (λ found. IsFirstDeeper stretches.now count limit found) }
{
    let edges = tally(alloc, stretches, count)?;
    let mut depth = 0;
    'places: for at in 0..count {
        depth = depth + edges.begins[at] - edges.ends[at];
        if depth > limit {
            return Ok(Some(at));
        }
    }
    Ok(None)
}

fn tally(alloc: Global, stretches: &[Stretch], count: usize) -> Result<Edges, AllocError>
    requires few { count < 2 ^ 32 }
    requires within { All (λ s. (s.first ≤ s.end) × (s.end ≤ count)) stretches.now }
    ensures { IfOk result (λ e. Tallied stretches.now count e.begins.items e.ends.items) }
{
    let mut begins = vec![in alloc; 0; count + 1]?;
    let mut ends = vec![in alloc; 0; count + 1]?;
    'stretches: for stretch in stretches {
        begins[stretch.first as usize] += 1;
        ends[stretch.end as usize] += 1;
    }
    Ok(Edges { begins, ends })
}
