//! The least of several offsets.

ghost use Rattle.std.specs.Prelude.{◌≡◌};
ghost use Rattle.expr.specs.Offsets as spec;

/// The lesser of two offsets.
pub fn least(i: u32, j: u32) -> u32
    ensures { result ≡ spec.least i j }
{
    if j < i { j } else { i }
}

/// The lesser of two offsets, of those that there are.
pub fn least_of(a: Option<u32>, b: Option<u32>) -> Option<u32>
    ensures { result ≡ spec.least_of a b }
{
    let Some(i) = a else {
        return b;
    };
    match b {
        None => Some(i),
        Some(j) => Some(least(i, j)),
    }
}
