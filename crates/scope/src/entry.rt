//! The entries of FROM.

use memory::Heap;
use row_ast::Condition;
use row_objects::Table;

/// An entry of FROM, whose table is found.
#[derive(Clone, Copy)]
pub struct Entry<'s, A: Heap> {
    /// The table.
    pub table: Table<'s, A>,
    /// Its alias, or its name.
    pub alias: &'s str,
    /// The index of the first entry of its comma item.
    pub first: usize,
    /// Its ON.
    pub on: Option<&'s Condition<A>>,
}
