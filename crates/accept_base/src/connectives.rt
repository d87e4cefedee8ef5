//! AND, OR and NOT of the outcomes of columns.

ghost use Rattle.std.specs.Prelude.{◌≤◌};

use crate::bits::{LENGTHS, MOST, bit, set_bit, words_for};
use Truth::{False, True, Unknown};
use columns::{and_masks, not_masks, or_masks};
use std::process::Abort;
use value::Truth;

// Two truth values, both, either, and not the first (PostgreSQL: Logical Operators).
static LOGIC: [(Truth, Truth, Truth, Truth, Truth); 9] = [
    (True, True, True, True, False),
    (True, False, False, True, False),
    (True, Unknown, Unknown, True, False),
    (False, True, False, True, True),
    (False, False, False, False, True),
    (False, Unknown, False, Unknown, True),
    (Unknown, True, Unknown, True, Unknown),
    (Unknown, False, False, Unknown, Unknown),
    (Unknown, Unknown, Unknown, Unknown, Unknown),
];

// An operand or an outcome of a row.
#[derive(Clone, Copy)]
enum Part {
    Left,
    Right,
    Both,
    Either,
    Negated,
}

fn truth_at(part: Part, i: usize) -> Truth {
    let (left, right, both, either, negated) = LOGIC[i % 9];
    match part {
        Part::Left => left,
        Part::Right => right,
        Part::Both => both,
        Part::Either => either,
        Part::Negated => negated,
    }
}

// A bit for each of the first `len` items that is of the truth value.
fn mask(part: Part, truth: Truth, len: usize) -> [u64; 2]
    requires { len ≤ 65 }
{
    let mut words = [0; 2];
    for i in 0..len {
        set_bit(&mut words, i, truth_at(part, i) == truth);
    }
    words
}

// The words are the masks of the outcome, with no bit past the items.
fn shows(rt: &impl Abort, is_true: &[u64], is_null: &[u64], part: Part, len: usize) {
    for i in 0..128usize {
        let want = if i < len {
            let truth = truth_at(part, i);
            (truth == True, truth == Unknown)
        } else {
            (false, false)
        };
        assert_eq!(rt;
            (bit(is_true, i), bit(is_null, i)),
            want,
            "item {i} of {len}"
        );
    }
}

fn connects(rt: &impl Abort, part: Part, len: usize)
    requires { len ≤ 65 }
{
    let words = words_for(len);
    let (mut is_true, mut is_null) = (mask(Part::Left, True, len), mask(Part::Left, Unknown, len));
    let (other_true, other_null) = (
        mask(Part::Right, True, len),
        mask(Part::Right, Unknown, len),
    );
    let (trues, nulls) = (&mut is_true[..words], &mut is_null[..words]);
    match part {
        Part::Both => and_masks(trues, nulls, &other_true[..words], &other_null[..words]),
        Part::Either => or_masks(trues, nulls, &other_true[..words], &other_null[..words]),
        _ => not_masks(len, trues, nulls),
    }
    shows(rt, &is_true, &is_null, part, len);
}

#[test]
fn outcomes_of_each_length_connect_as_truth_values_do(rt: HostRuntime) {
    for len in &LENGTHS {
        assert!(&rt; *len <= MOST);
        connects(&rt, Part::Both, *len);
        connects(&rt, Part::Either, *len);
        connects(&rt, Part::Negated, *len);
    }
}
