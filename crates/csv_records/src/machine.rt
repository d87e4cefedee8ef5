//! The machine that reads records byte by byte.

ghost use Rattle.csv_records.specs.Machine.{IsStep};

/// Where in a record a byte is read.
#[derive(Clone, Copy, PartialEq, Eq, Debug)]
pub(crate) enum Place {
    /// Before a record.
    Record,
    /// Before a field.
    Field,
    /// In a field that is not quoted, or after a quoted part.
    Plain,
    /// In a quoted field.
    Quoted,
    /// After a quote in a quoted field, which closes it, or starts a quote that is doubled.
    Closed,
}

/// What a byte does.
#[derive(Clone, Copy, PartialEq, Eq, Debug)]
pub(crate) enum Act {
    /// Nothing.
    Skip,
    /// It joins the field at hand.
    Copy,
    /// It ends a field.
    EndField,
    /// It ends a record, and its last field.
    EndRecord,
}

// Of a byte that is read in a field that is not quoted.
fn plain_step(byte: u8) -> (Place, Act)
    ensures { IsStep Place.Plain byte result.0 result.1 }
{
    match byte {
        b',' => (Place::Field, Act::EndField),
        b'\n' | b'\r' => (Place::Record, Act::EndRecord),
        _ => (Place::Plain, Act::Copy),
    }
}

/// The place after a byte, and what the byte does.
pub(crate) fn step(place: Place, byte: u8) -> (Place, Act)
    ensures { IsStep place byte result.0 result.1 }
{
    match (place, byte) {
        (Place::Record, b'\n' | b'\r') => (Place::Record, Act::Skip),
        (Place::Record | Place::Field, b'"') => (Place::Quoted, Act::Skip),
        (Place::Quoted, b'"') => (Place::Closed, Act::Skip),
        (Place::Quoted, _) => (Place::Quoted, Act::Copy),
        (Place::Closed, b'"') => (Place::Quoted, Act::Copy),
        _ => plain_step(byte),
    }
}
