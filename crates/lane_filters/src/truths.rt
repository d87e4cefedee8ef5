//! Truth values of all rows of a table, 64 to a word.

ghost use Rattle.std.specs.Prelude.{◌≡◌, ◌<◌, ◌≤◌, IfOk, length, map, get_or, replicate};
ghost use Rattle.std.specs.Simd.Lanes.{zip2};
ghost use Rattle.value.specs.Datum as value;
ghost use Rattle.value.specs.Datum.{int};
ghost use Rattle.value.specs.Orders.{equal_of, is_true, of_bool};
ghost use Rattle.value.specs.Truths.{greatest, least, negated};
ghost use Rattle.value.specs.declared.order.Truth.TheVariants.{False};
ghost use Rattle.eval.specs.Operators.{comparison_of, null_test};
ghost use Rattle.columns.specs.Data.{cells_of};
ghost use Rattle.columns.specs.Bits as masks;
ghost use Rattle.columns.specs.Optional.{text_or_null};
ghost use Rattle.tables.specs.declared.TheConstants.{MAX_ROWS};

use columns::{ColumnData, Ints, Mask, Texts, and_masks, cmp_cols, cmp_lit, not_masks, or_masks};
use memory::Heap;
use std::alloc::AllocError;
use std::marker::Model;
use value::Comparison;

/// A truth value for each row of a table. A contract sees the truth values.
#[derive(Drop)]
pub struct Truths<A: Heap> {
    trues: Vec<u64, A>,
    nulls: Vec<u64, A>,
    len: usize,
}

impl<A: Heap> Model for Truths<A> {
    ghost use Rattle.std.specs.Prelude.{List};
    ghost use Rattle.value.specs.declared.order.Truth.{Truth};

    ghost Value = { List Truth };

    ghost use Rattle.lane_filters.specs.View.{truths_in, AreShown};

    ghost view = { truths_in };

    ghost invariant = { AreShown };
}

// The number of words of the mask of so many items.
fn words_for(len: usize) -> usize
    ensures { result ≡ masks.words_for len }
{
    len / 64 + usize::from(len % 64 > 0)
}

// So many words with no bit set.
fn zeros<A: Heap>(alloc: A, words: usize) -> Result<Vec<u64, A>, AllocError>
    ensures { IfOk result (λ v. v.items ≡ replicate words 0) }
{
    Vec::from_elem(alloc, 0, words)
}

// Whether the value of a cell, which may be null, is a text.
fn is_text(cell: Option<&str>, text: &str) -> bool
    ensures { result ≡ is_true (equal_of (text_or_null cell.entry) (value.text text.now)) }
{
    match cell {
        Some(value) => value == text,
        None => false,
    }
}

// Whether each value of a column is a text.
fn equal_mask<A: Heap>(alloc: A, column: &Texts<A>, text: &str) -> Result<Mask<A>, AllocError>
    requires { length column.now ≤ MAX_ROWS }
    ensures { IfOk result (λ m. m ≡ map (λ d. is_true (equal_of d (value.text text.now))) column.now) }
{
    let mut equal = Mask::new(alloc);
    for i in 0..column.len() {
        equal.push(is_text(column.get(i), text))?;
    }
    Ok(equal)
}

// A copy of words.
fn copied<A: Heap>(alloc: A, words: &[u64]) -> Result<Vec<u64, A>, AllocError>
    ensures { IfOk result (λ v. v.items ≡ words.now) }
{
    let mut copy = zeros(alloc, words.len())?;
    copy.copy_from_slice(words);
    Ok(copy)
}

impl<A: Heap> Truths<A> {
    /// As many that are false.
    pub(crate) fn all_false(alloc: A, len: usize) -> Result<Truths<A>, AllocError>
        ensures { IfOk result (λ t. t ≡ replicate len False) }
    {
        let words = words_for(len);
        let trues = zeros(alloc, words)?;
        let nulls = zeros(alloc, words)?;
        Ok(Truths { trues, nulls, len })
    }

    /// As many that are all true, or all false.
    pub fn all(alloc: A, len: usize, truth: bool) -> Result<Truths<A>, AllocError>
        ensures { IfOk result (λ t. t ≡ replicate len (of_bool truth)) }
    {
        let mut truths = Truths::all_false(alloc, len)?;
        if truth {
            truths.negate();
        }
        Ok(truths)
    }

    /// The comparison of each value of a column with a number.
    pub(crate) fn of_column(
        alloc: A,
        op: Comparison,
        column: &Ints<A>,
        number: i64,
    ) -> Result<Truths<A>, AllocError>
        ensures { IfOk result (λ t. t ≡ map (λ d. comparison_of op d (int number)) column.now) }
    {
        let (values, nulls) = column.lanes();
        let mut is_true = zeros(alloc, nulls.len())?;
        let mut is_null = zeros(alloc, nulls.len())?;
        cmp_lit(op, values, nulls, number, &mut is_true, &mut is_null);
        Ok(Truths {
            trues: is_true,
            nulls: is_null,
            len: values.len(),
        })
    }

    /// The comparison of each value of a column with that of another column in the same row.
    pub(crate) fn of_columns(
        alloc: A,
        op: Comparison,
        left: &Ints<A>,
        right: &Ints<A>,
    ) -> Result<Truths<A>, AllocError>
        requires { length right.now ≡ length left.now }
        ensures { IfOk result (λ t. t ≡ zip2 (comparison_of op) left.now right.now) }
    {
        let (values, nulls) = left.lanes();
        let (others, other_nulls) = right.lanes();
        let mut is_true = zeros(alloc, nulls.len())?;
        let mut is_null = zeros(alloc, nulls.len())?;
        cmp_cols(
            op,
            values,
            nulls,
            others,
            other_nulls,
            &mut is_true,
            &mut is_null,
        );
        Ok(Truths {
            trues: is_true,
            nulls: is_null,
            len: values.len(),
        })
    }

    /// Whether each value of a column is a text.
    pub(crate) fn of_equal(alloc: A, column: &Texts<A>, text: &str) -> Result<Truths<A>, AllocError>
        requires { length column.now ≤ MAX_ROWS }
        ensures { IfOk result (λ t. t ≡ map (λ d. equal_of d (value.text text.now)) column.now) }
    {
        let equal = equal_mask(alloc, column, text)?;
        let bits = equal.words();
        let trues = copied(alloc, bits)?;
        let missing = column.nulls();
        let nulls = copied(alloc, missing)?;
        Ok(Truths {
            trues,
            nulls,
            len: column.len(),
        })
    }

    /// IS NULL of each value of a column.
    pub(crate) fn of_nulls(alloc: A, column: &ColumnData<A>) -> Result<Truths<A>, AllocError>
        ensures { IfOk result (λ t. t ≡ map null_test (cells_of column.now)) }
    {
        let words = column.nulls();
        let mut trues = zeros(alloc, words.len())?;
        trues.copy_from_slice(words);
        let nulls = zeros(alloc, words.len())?;
        Ok(Truths {
            trues,
            nulls,
            len: column.len(),
        })
    }

    /// NOT of each.
    pub(crate) fn negate(&mut self)
        ensures { self.new ≡ map negated self.old }
    {
        not_masks(self.len, &mut self.trues, &self.nulls);
    }

    /// AND with those of other conditions on the same rows.
    pub fn and(&mut self, other: &Truths<A>)
        requires { length other.now ≡ length self.old }
        ensures { self.new ≡ zip2 least self.old other.now }
    {
        and_masks(&mut self.trues, &mut self.nulls, &other.trues, &other.nulls);
    }

    /// OR with those of other conditions on the same rows.
    pub(crate) fn or(&mut self, other: &Truths<A>)
        requires { length other.now ≡ length self.old }
        ensures { self.new ≡ zip2 greatest self.old other.now }
    {
        or_masks(&mut self.trues, &mut self.nulls, &other.trues, &other.nulls);
    }

    /// The number of rows.
    pub fn len(&self) -> usize
        ensures { result ≡ length self.now }
    {
        self.len
    }

    /// Whether each is true: neither false nor null.
    pub(crate) fn into_mask(self) -> Mask<A>
        ensures { result ≡ map is_true self }
    {
        Mask::of_words(self.trues, self.len)
    }

    /// True where the condition is true on the row of this number: neither false nor null.
    pub fn is_true(&self, row: usize) -> bool
        requires { row < length self.now }
        ensures { result ≡ is_true (get_or self.now row False) }
    {
        (self.trues[row / 64] >> (row % 64)) & 1 == 1
    }
}
