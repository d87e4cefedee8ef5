//! Two values, or the least offset of an error.

ghost use Rattle.std.specs.Prelude.{◌≡◌};
ghost use Rattle.typing.specs.Offsets as spec;

use expr::least;

/// Both values, or the least offset of an error.
pub fn both<X: Copy, Y: Copy>(x: Result<X, u32>, y: Result<Y, u32>) -> Result<(X, Y), u32>
    ensures { result ≡ spec.both x y }
{
    match x {
        Ok(a) => match y {
            Ok(b) => Ok((a, b)),
            Err(j) => Err(j),
        },
        Err(i) => match y {
            Ok(_) => Err(i),
            Err(j) => Err(least(i, j)),
        },
    }
}
