//! The faults of an evaluation.

ghost use Rattle.std.specs.Prelude.{◌≡◌};
ghost use Rattle.value.specs.Faults.{kind_code, kind_cmp, kind_meaning};

use crate::types::FaultKind;
use std::error::Error;
use std::fmt;

/// The fault of an evaluation.
#[derive(Clone, Copy, Debug, PartialEq, Eq)]
pub struct Fault {
    /// The offset of the failing part in the query's text.
    pub offset: u32,
    /// Its kind.
    pub kind: FaultKind,
}

impl FaultKind {
    /// The code, of five characters (PostgreSQL: Error Codes).
    pub fn code(self) -> &'static str
        ensures { result.now ≡ kind_code self }
    {
        match self {
            FaultKind::Div0 => "22012",
            FaultKind::Range => "22003",
            FaultKind::BadText => "22P02",
        }
    }

    /// The meaning of the code, in words.
    pub fn meaning(self) -> &'static str
        ensures { result.now ≡ kind_meaning self }
    {
        match self {
            FaultKind::Div0 => "division by zero",
            FaultKind::Range => "the number does not fit in a bigint",
            FaultKind::BadText => "the text is no number or no truth value",
        }
    }
}

impl fmt::Display for FaultKind {
    ghost use Rattle.std.specs.Prelude.{Some};

    ghost output = { λ kind. Some (kind_meaning kind) };

    fn fmt<W: fmt::Write>(&self, f: &mut fmt::Formatter<W>) -> fmt::Result {
        f.write_str(self.meaning())
    }
}

impl Error for FaultKind {}

/// Of two kinds that both apply the lesser is reported: division by zero, then a number out of range, then a text that
/// is not a number.
pub fn law_kinds_in_order()
    ensures { (a b : FaultKind) → ⟦<FaultKind as Ord>⟧.cmp a b ≡ kind_cmp a b }
{}
