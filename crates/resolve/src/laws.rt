//! Laws of the definitions.

ghost use Rattle.resolve.specs.EntryTables.{BindsTables};

/// Each entry of a query that is bound is of a table of the catalogue, the one that its name resolves to.
pub fn law_entries_are_tables()
    ensures { BindsTables }
{}
