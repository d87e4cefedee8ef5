//! Laws of schema statements.

ghost use Rattle.std.specs.Prelude.{List};
ghost use Rattle.value.specs.Names.{Name};
ghost use Rattle.row_ast.specs.Statements.{Statement};
ghost use Rattle.row_objects.specs.Memberships.{HasNoLoop};
ghost use Rattle.catalog.specs.Catalog.{at_first};
ghost use Rattle.catalog.specs.Granted.{GrantedAgain, IsGranted, RevokedColumns, RevokedTable};
ghost use Rattle.catalog.specs.Run.{run};
ghost use Rattle.catalog.specs.TableColumns.{KeepsColumns};

/// No catalogue that statements make has a loop of memberships.
pub fn law_no_loop()
    ensures { (statements : List (Name × Statement)) → HasNoLoop (run statements at_first).memberships }
{}

/// After a GRANT its roles hold the granted privileges, and granting them again leaves the catalogue as it is.
pub fn law_granted_again()
    ensures granted { IsGranted }
    ensures again { GrantedAgain }
{}

/// After a REVOKE on a table its roles hold no grant on it or on its columns. One on columns leaves the grants on the whole
/// table.
pub fn law_revoked()
    ensures table { RevokedTable }
    ensures columns { RevokedColumns }
{}

/// A statement changes no name and no column of a table that is there, and only a CREATE TABLE adds one, at the end.
pub fn law_tables_keep_their_columns()
    ensures { KeepsColumns }
{}
