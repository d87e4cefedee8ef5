//! The comparison of two numbers.

ghost use Rattle.std.specs.Prelude.{◌≡◌, All, FitsSigned};
ghost use Rattle.std.specs.Int.{w64};
ghost use Rattle.columns.specs.Comparing.{holds};

use value::Comparison;

// Each value is a number of 64 bits. Of a slice a proof knows that once the numbers are read; the loop does nothing else.
pub(crate) fn known_to_fit(values: &[i64])
    ensures { All (FitsSigned w64) values.now }
{
    for value in values {
        let _value = *value;
    }
}

/// True where a comparison of two numbers holds (PostgreSQL: Comparison Functions and Operators).
pub fn holds(op: Comparison, left: i64, right: i64) -> bool
    ensures { result ≡ holds op left right }
{
    match op {
        Comparison::Equal => left == right,
        Comparison::NotEqual => left != right,
        Comparison::Less => left < right,
        Comparison::LessOrEqual => left <= right,
        Comparison::Greater => left > right,
        Comparison::GreaterOrEqual => left >= right,
    }
}
