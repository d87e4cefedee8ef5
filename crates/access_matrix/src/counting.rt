//! Counting truth values.

ghost use Rattle.std.specs.Prelude.{◌≡◌, ◌<◌, ◌&&◌, ℕ, not, filter, length, get_or, false};
ghost use Rattle.std.specs.List.{range_with_len};

use columns::Mask;
use memory::Heap;

/// How many are true.
pub(crate) fn count<A: Heap>(marks: &Mask<A>) -> usize
    ensures { result ≡ length (filter (λ b. b) marks.now) }
{
    let mut count = 0;
    for number in 0..marks.len() {
        if marks.get(number) {
            count += 1;
        }
    }
    count
}

// True where the first list has true at an index, and the second has not.
fn is_gained<A: Heap>(new: &Mask<A>, old: &Mask<A>, number: usize) -> bool
    requires { number < length new.now }
    ensures { result ≡ (get_or new.now number false && not (get_or old.now number false)) }
{
    new.get(number) && !(number < old.len() && old.get(number))
}

/// At how many indexes the first list has true, and the second has not.
pub(crate) fn count_gained<A: Heap>(new: &Mask<A>, old: &Mask<A>) -> usize
    ensures { result ≡ length (filter (λ number. get_or new.now number false && not (get_or old.now number false)) (range_with_len 0 (length new.now))) }
{
    let mut count = 0;
    for number in 0..new.len() {
        if is_gained(new, old, number) {
            count += 1;
        }
    }
    count
}
