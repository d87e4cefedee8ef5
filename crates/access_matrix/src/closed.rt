//! A change that opens nothing.

ghost use Rattle.access_matrix.specs.Closed.{NothingOpens};

/// Where a change opens nothing but what is allowed, each cell that a role reads under the new schema it reads under the old one,
/// unless the role and the table are among what is allowed.
pub fn law_nothing_opens()
    ensures { NothingOpens }
{}
