//! Outcomes of allocations beside values that are already owned. A `?` behind which something is owned lets go of it in
//! place, field by field; these let go of it by one call, so a caller's `?` has nothing to let go of.
#![tactic(auto)]

ghost use Rattle.std.specs.Prelude.{◌≡◌, IfOk, Ok};

use std::alloc::AllocError;

/// An outcome and a part beside it, which is dropped where memory is short.
pub fn kept<T, P: Drop>(outcome: Result<T, AllocError>, part: P) -> Result<(T, P), AllocError>
    ensures outcome { IfOk result (λ r. outcome ≡ Ok r.0) }
    ensures part { IfOk result (λ r. r.1 ≡ part) }
{
    match outcome {
        Ok(value) => Ok((value, part)),
        Err(e) => Err(e),
    }
}

/// Two outcomes as one.
pub fn both<A: Drop, B: Drop>(
    a: Result<A, AllocError>,
    b: Result<B, AllocError>,
) -> Result<(A, B), AllocError>
    ensures a { IfOk result (λ r. a ≡ Ok r.0) }
    ensures b { IfOk result (λ r. b ≡ Ok r.1) }
{
    let (a, b) = kept(a, b)?;
    let (b, a) = kept(b, a)?;
    Ok((a, b))
}
