ghost use Rattle.std.specs.Prelude.{◌≡◌, ◌↔◌, IsTrue, IsOk, IfOk};
ghost use Rattle.std.specs.Int.{IsGcd};
ghost use Rattle.xc_lin.specs.Affine.{IsNarrow, plus};
ghost use Rattle.xc_lin.specs.Region.{HasPoints, Bounds};

use xc_lin::{Affine, Region, TooWide, gcd};

pub fn divisor(a: u64, b: u64) -> u64
    ensures { IsGcd a b result }
{
    gcd(a, b)
}

pub fn sum(a: &Affine, b: &Affine) -> Result<Affine, TooWide>
    ensures ok { IfOk result (λ sum. sum ≡ plus a.now b.now) }
    ensures fits { IsOk result ↔ IsNarrow (plus a.now b.now) }
{
    a.add(b)
}

pub fn has_points(a: &Affine, b: &Affine, over: &Region) -> bool
    ensures { IsTrue result ↔ HasPoints a.now b.now over.now }
{
    xc_lin::has_points(a, b, over)
}

pub fn extremes(a: &Affine, b: &Affine, over: &Region) -> (i128, i128)
    requires { HasPoints a.now b.now over.now }
    ensures { Bounds a.now b.now over.now result.0 result.1 }
{
    xc_lin::extremes(a, b, over)
}
