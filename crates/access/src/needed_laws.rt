//! The columns that a query names, and those for which it needs a grant.

ghost use Rattle.access.specs.NamedLaws.{EntriesAreNeeded, NamedAreMentioned, NamedAreNeeded};

/// A query needs SELECT on each column that it names, and on no other: each such column is among its mentions, and so
/// each that is there is required. Of an entry of which it names no column it needs SELECT on some part of the table.
pub fn law_named_are_needed()
    ensures mentioned { NamedAreMentioned }
    ensures needed { NamedAreNeeded }
    ensures entries { EntriesAreNeeded }
{}
