//! Laws of the definitions.

ghost use Rattle.store.specs.Agreement.{HasEachContents};

/// Where the contents agree with the catalogue, each of its tables has contents, with its columns: none is ever missing.
pub fn law_tables_have_contents()
    ensures { HasEachContents }
{}
