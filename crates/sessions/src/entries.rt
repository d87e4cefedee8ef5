//! Lists of entries, each with its key.

ghost use Rattle.std.specs.Prelude.{◌≡◌, ◌<◌, IfSome, length, nat_eq};
ghost use Rattle.std.specs.Str.{bytes_eq};
ghost use Rattle.std.specs.List.{position_from};

use memory::{Heap, Text};

// The index of the entry of a number.
pub(crate) fn index_numbered<V>(entries: &[(u64, V)], number: u64) -> Option<usize>
    ensures index { result ≡ position_from (λ e. nat_eq number e.0) 0 entries.now }
    ensures within { IfSome result (λ i. i < length entries.now) }
{
    for (i, entry) in entries.iter().enumerate() {
        if number == entry.0 {
            return Some(i);
        }
    }
    None
}

// The index of the entry of a name.
pub(crate) fn index_named<V, A: Heap>(entries: &[(Text<A>, V)], name: &str) -> Option<usize>
    ensures index { result ≡ position_from (λ e. bytes_eq name.now e.0) 0 entries.now }
    ensures within { IfSome result (λ i. i < length entries.now) }
{
    for (i, entry) in entries.iter().enumerate() {
        if name == entry.0.as_str() {
            return Some(i);
        }
    }
    None
}
