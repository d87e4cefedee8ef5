//! What every statement and every load keeps of a database.

ghost use Rattle.store.specs.Database.{at_start};
ghost use Rattle.catalog_laws.specs.WellFormedDatabase.{ArisesWellFormed, IsWellFormedDatabase, LoadsKeep, RowsFit, StatementsKeep};

/// The database at the start is well formed, statements and loads keep it so, and with it each database that arises by
/// them. In one that is, each row of a table fits the columns that the catalogue has.
pub fn law_well_formed_database()
    ensures start { IsWellFormedDatabase at_start }
    ensures statement { StatementsKeep }
    ensures load { LoadsKeep }
    ensures runs { ArisesWellFormed }
    ensures rows { RowsFit }
{}
