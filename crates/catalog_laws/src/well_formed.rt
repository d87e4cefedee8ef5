//! What every statement keeps of a catalogue.

ghost use Rattle.catalog.specs.Catalog.{at_first};
ghost use Rattle.catalog_laws.specs.WellFormed.{GuardsShow, IsWellFormed, KeepsWellFormed, RunsAreWellFormed};

/// The catalogue at first is well formed, a statement that is not refused keeps it so, and with it each catalogue that
/// statements make. In one that is, the guard of a role on a table is true exactly on the rows that the role sees.
pub fn law_well_formed()
    ensures first { IsWellFormed at_first }
    ensures change { KeepsWellFormed }
    ensures runs { RunsAreWellFormed }
    ensures guards { GuardsShow }
{}
