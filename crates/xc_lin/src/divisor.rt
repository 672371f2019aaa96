//! The greatest common divisor.
ghost use Rattle.std.specs.Int.{IsGcd};

/// The greatest common divisor of two numbers, by Euclid: it divides both, and each number that
/// divides both divides it. So that of 0 and 0 is 0.
pub fn gcd(a: u64, b: u64) -> u64
    ensures { IsGcd a b result }
{
    let (mut greater, mut less) = (a, b);
    while less != 0 {
        (greater, less) = (less, greater % less);
    }
    greater
}
