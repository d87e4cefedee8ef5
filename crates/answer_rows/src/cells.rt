//! Values of all rows, one after the other.

/// A value; of a text its number among the texts.
#[derive(Clone, Copy, Debug)]
pub(crate) enum Cell {
    Null,
    Int(i64),
    Text(usize),
    Bool(bool),
}

/// Where the values of a row stand.
#[derive(Clone, Copy, Debug)]
pub(crate) struct Place {
    pub(crate) start: u32,
    pub(crate) len: u32,
}
