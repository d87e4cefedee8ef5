//! An expression with its marks.

ghost use Rattle.std.specs.Prelude.{◌≡◌, ◌≢◌, ◌<◌, ◌==◌, ℕ, IfOk, IsSome, None, OnOk, Some, length, nat_lt, not, option_map, true};
ghost use Rattle.std.specs.List.{list_all};
ghost use Rattle.memory.specs.Gives.{Gives};
ghost use Rattle.value.specs.Datum.{datum_of};
ghost use Rattle.expr.specs.View.{bound_expr_of};
ghost use Rattle.eval.specs.Marks.{outcome_of};
ghost use Rattle.groups.specs.Progress.{HasMemory};
ghost use Rattle.tuples.specs.Slots.{slot_at};
ghost use Rattle.tuples.specs.View.{world_of};
ghost use Rattle.tuples.specs.declared.slot.Slot.TheVariants as slots;
ghost use Rattle.row_marks.specs.Marked as spec;
ghost use Rattle.row_marks.specs.Marks.{IsMade, IsMarked, StayMade, mark_at, mark_of, null_mark, outcome_in, seen_of};

use crate::mark_column::MarkColumn;
use eval::{Mark, Row, eval, mark};
use expr::{BoundExpr, ColumnId, push_columns};
use memory::{Failure, Heap, Items};
use std::alloc::AllocError;
use tuples::{Combo, Slot, TableRow, World, shows};
use value::{Fault, Truth, Val, as_condition};

/// An expression of a query, and its marks on the rows of the entry whose columns it names, where these are all of one.
#[derive(Drop)]
pub struct Marked<'w, A: Heap> {
    /// The expression.
    pub expression: &'w BoundExpr<A>,
    // The entry, where marks are made.
    pub entry: Option<usize>,
    // False where no more marks are made for combinations.
    pub is_kept: bool,
    pub marks: MarkColumn<A>,
    // The mark on the null row of the entry, if it is made.
    pub on_null: Option<Mark<A>>,
}

/// The argument of an aggregate, with its marks; count(*) has none.
#[derive(Drop)]
pub struct MarkedArgument<'w, A: Heap> {
    /// The argument.
    pub marked: Option<Marked<'w, A>>,
}

// True where columns are all of an entry.
fn are_of(columns: &[ColumnId], entry: usize) -> bool
    ensures { result ≡ list_all (λ id. id.entry == entry) columns.now }
{
    columns.iter().all(|id| id.entry == entry)
}

// The entry of some columns, where they are all of one.
fn one_entry(columns: &[ColumnId]) -> Option<usize>
    ensures { result ≡ spec.one_entry columns.now }
{
    let (first, others) = columns.split_first()?;
    if are_of(others, first.entry) {
        Some(first.entry)
    } else {
        None
    }
}

// The entry of an expression on whose rows it is computed once.
fn marked_entry<A: Heap>(
    alloc: A,
    world: &World<'_, A>,
    expression: &BoundExpr<A>,
) -> Result<Option<usize>, AllocError>
    ensures { IfOk result (λ o. o ≡ spec.marked_entry (world_of world.now) (bound_expr_of expression.now)) }
{
    let mut columns = Items::new(alloc);
    push_columns(&mut columns, expression)?;
    let count = world.tables.len();
    match one_entry(columns.as_slice()) {
        Some(entry) if 1 < count && entry < count => Ok(Some(entry)),
        _ => Ok(None),
    }
}

// That of an item or an argument: none of a column, whose cells are there already.
fn computed_entry<A: Heap>(
    alloc: A,
    world: &World<'_, A>,
    expression: &BoundExpr<A>,
) -> Result<Option<usize>, AllocError>
    ensures { IfOk result (λ o. o ≡ spec.computed_entry (world_of world.now) (bound_expr_of expression.now)) }
{
    match expression {
        BoundExpr::Column(_) => Ok(None),
        _ => marked_entry(alloc, world, expression),
    }
}

// True where an entry has a table, and this the row of a number.
fn has_row<A: Heap>(world: &World<'_, A>, entry: usize, number: u32) -> bool
    ensures entry { result ≡ true → entry < length world.now.tables.now }
    ensures row { result ≡ nat_lt number (length (spec.entry_rows (world_of world.now) entry)) }
{
    entry < world.tables.len() && u64::from(number) < world.tables[entry].rows.rows()
}

// The number of rows of an entry; none where it has no table.
fn row_count<A: Heap>(world: &World<'_, A>, entry: usize) -> u32
    ensures { result ≡ length (spec.entry_rows (world_of world.now) entry) }
{
    if entry < world.tables.len() {
        world.tables[entry].rows.rows() as u32
    } else {
        0
    }
}

// True where an entry has a table, and this the row of a number and a guard that shows it to the role.
fn is_seen<A: Heap>(alloc: A, world: &World<'_, A>, entry: usize, number: u32) -> bool
    ensures { result ≡ spec.is_seen (world_of world.now) entry number }
{
    if !has_row(world, entry, number) {
        return false;
    }
    let row = TableRow::new(world.tables[entry].rows, u64::from(number));
    shows(alloc, world.tables[entry].guard, world.role, &row)
}

// The mark of an expression on a row of an entry.
fn mark_on<A: Heap>(
    alloc: A,
    world: &World<'_, A>,
    expression: &BoundExpr<A>,
    entry: usize,
    number: u32,
) -> Result<Mark<A>, AllocError>
    requires entry { entry < length world.now.tables.now }
    requires row { number < length (spec.entry_rows (world_of world.now) entry) }
    ensures { IfOk result (λ m. outcome_of m ≡ spec.mark_on (world_of world.now) entry (bound_expr_of expression.now) number) }
{
    let row = TableRow::new(world.tables[entry].rows, u64::from(number));
    mark(alloc, expression, &row, world.role)
}

// The cells of a null row.
struct NullCells {}

impl<A: Heap> Row<A> for NullCells {
    ghost use Rattle.std.specs.Prelude.{[]};
    ghost use Rattle.tuples.specs.Rows.{cells_of};

    ghost cells = { λ _. cells_of [] };

    fn cell(&self, _id: ColumnId) -> Val<'_, A> {
        Val::Null
    }

    fn aggregate(&self, _offset: u32) -> Val<'_, A> {
        Val::Null
    }
}

// The mark of an expression on the null row of its entry.
fn mark_on_null<A: Heap>(
    alloc: A,
    world: &World<'_, A>,
    expression: &BoundExpr<A>,
) -> Result<Mark<A>, AllocError>
    ensures { IfOk result (λ m. outcome_of m ≡ spec.mark_on_null (world_of world.now) (bound_expr_of expression.now)) }
{
    mark(alloc, expression, &NullCells {}, world.role)
}

// Puts the mark of an expression on a row of an entry, if the role sees it.
fn put_if_seen<A: Heap>(
    alloc: A,
    world: &World<'_, A>,
    expression: &BoundExpr<A>,
    entry: usize,
    number: u32,
    marks: &mut MarkColumn<A>,
) -> Result<(), AllocError>
    ensures made { mark_at marks.old number ≡ None → OnOk result (mark_at marks.new number ≡ spec.seen_mark (world_of world.now) entry (bound_expr_of expression.now) number) }
    ensures others { (k : ℕ) → k ≢ number → mark_at marks.new k ≡ mark_at marks.old k }
{
    if !is_seen(alloc, world, entry, number) {
        return Ok(());
    }
    let mark = mark_on(alloc, world, expression, entry, number)?;
    marks.put(number, mark)
}

// The marks of an expression on the rows of an entry that the role sees, and no other.
fn seen_marks<A: Heap>(
    alloc: A,
    world: &World<'_, A>,
    expression: &BoundExpr<A>,
    entry: usize,
) -> Result<MarkColumn<A>, AllocError>
    ensures { IfOk result (λ c. (number : ℕ) → mark_at c number ≡ spec.seen_mark (world_of world.now) entry (bound_expr_of expression.now) number) }
{
    let mut marks = MarkColumn::new(alloc);
    for number in 0..row_count(world, entry) {
        put_if_seen(alloc, world, expression, entry, number, &mut marks)?;
    }
    Ok(marks)
}

// True for false and null: neither true nor a fault.
fn drops<A: Heap>(mark: &Mark<A>) -> bool
    ensures { result ≡ spec.is_dropping (outcome_of mark.now) }
{
    match mark {
        Mark::Value(value) => as_condition(&value.as_val()) != Truth::True,
        Mark::Fault(_) => false,
    }
}

impl<'w, A: Heap> MarkedArgument<'w, A> {
    /// The expression with its marks, if there is one.
    pub fn marked(&self) -> Option<&Marked<'w, A>>
        ensures { option_map (λ m. m.now) result ≡ self.now.marked }
    {
        self.marked.as_ref()
    }
}

impl<'w, A: Heap> Marked<'w, A> {
    /// The expression, of which no mark is made.
    pub fn new(
        alloc: A,
        world: &World<'_, A>,
        expression: &'w BoundExpr<A>,
    ) -> Result<Marked<'w, A>, AllocError>
        ensures seen { IfOk result (λ m. seen_of m ≡ (bound_expr_of expression.now, spec.marked_entry (world_of world.now) (bound_expr_of expression.now))) }
        ensures marked { IfOk result (λ m. IsMarked (world_of world.now) m) }
    {
        Ok(Marked {
            expression,
            entry: marked_entry(alloc, world, expression)?,
            is_kept: true,
            marks: MarkColumn::new(alloc),
            on_null: None,
        })
    }

    /// The expression, of which no mark is made; none ever, where it is a column, whose cells are there already.
    pub fn unless_column(
        alloc: A,
        world: &World<'_, A>,
        expression: &'w BoundExpr<A>,
    ) -> Result<Marked<'w, A>, AllocError>
        ensures seen { IfOk result (λ m. seen_of m ≡ (bound_expr_of expression.now, spec.computed_entry (world_of world.now) (bound_expr_of expression.now))) }
        ensures marked { IfOk result (λ m. IsMarked (world_of world.now) m) }
    {
        Ok(Marked {
            expression,
            entry: computed_entry(alloc, world, expression)?,
            is_kept: true,
            marks: MarkColumn::new(alloc),
            on_null: None,
        })
    }

    /// Makes the mark on a row of an entry, unless it is made or the table has no such row.
    pub fn make_on(
        &mut self,
        alloc: A,
        world: &World<'_, A>,
        entry: usize,
        number: u32,
    ) -> Result<(), AllocError>
        requires { self.old.entry ≡ Some entry }
        ensures seen { seen_of self.new ≡ seen_of self.old }
        ensures marked { IsMarked (world_of world.now) self.old → IsMarked (world_of world.now) self.new }
        ensures made { IsMarked (world_of world.now) self.old → number < length (spec.entry_rows (world_of world.now) entry) → OnOk result (mark_at self.new.marks number ≡ Some (spec.mark_on (world_of world.now) entry (bound_expr_of self.old.expression.now) number)) }
        ensures stay { StayMade self.old.marks self.new.marks }
    {
        if !has_row(world, entry, number) || self.marks.get(number).is_some() {
            return Ok(());
        }
        let mark = mark_on(alloc, world, self.expression, entry, number)?;
        self.marks.put(number, mark)
    }

    // Makes the mark on the null row of its entry, unless it is made.
    fn make_on_null(&mut self, alloc: A, world: &World<'_, A>) -> Result<(), AllocError>
        ensures seen { seen_of self.new ≡ seen_of self.old }
        ensures marked { IsMarked (world_of world.now) self.old → IsMarked (world_of world.now) self.new }
        ensures made { OnOk result (IsSome (null_mark self.new)) }
        ensures marks { self.new.marks ≡ self.old.marks }
    {
        if self.on_null.is_some() {
            return Ok(());
        }
        self.on_null = Some(mark_on_null(alloc, world, self.expression)?);
        Ok(())
    }

    /// Makes its marks anew: on the rows of its entry that the role sees, and on no other; and on the null row.
    pub fn make_seen(&mut self, alloc: A, world: &World<'_, A>) -> Result<(), AllocError>
        ensures seen { seen_of self.new ≡ seen_of self.old }
        ensures marked { IsMarked (world_of world.now) self.old → IsMarked (world_of world.now) self.new }
        ensures made { OnOk result (IsMade (world_of world.now) self.new) }
    {
        let Some(entry) = self.entry else {
            return Ok(());
        };
        let on_null = mark_on_null(alloc, world, self.expression)?;
        self.marks = seen_marks(alloc, world, self.expression, entry)?;
        self.on_null = Some(on_null);
        Ok(())
    }

    /// The mark on the row of a number, if it is made.
    pub fn mark_on(&self, number: u32) -> Option<&Mark<A>>
        ensures { option_map (λ m. outcome_of m.now) result ≡ mark_at self.now.marks number }
    {
        self.marks.get(number)
    }

    /// What `keeps_row` answers, by the marks that are made: where that on the row is not, the expression is evaluated.
    pub fn keeps(
        &self,
        alloc: A,
        world: &World<'_, A>,
        entry: usize,
        number: u32,
    ) -> Result<bool, AllocError>
        ensures { IsMarked (world_of world.now) self.now → self.now.entry ≡ spec.marked_entry (world_of world.now) (bound_expr_of self.now.expression.now) → IfOk result (λ b. b ≡ not (spec.drops_by (world_of world.now) (bound_expr_of self.now.expression.now) entry number)) }
    {
        if self.entry != Some(entry) || !has_row(world, entry, number) {
            return Ok(true);
        }
        match self.marks.get(number) {
            Some(mark) => Ok(!drops(mark)),
            None => {
                let mark = mark_on(alloc, world, self.expression, entry, number)?;
                Ok(!drops(&mark))
            }
        }
    }

    /// False where it is false or null on a row of an entry, which its columns are all of; a fault keeps. The mark is made, unless it
    /// is made already.
    pub fn keeps_row(
        &mut self,
        alloc: A,
        world: &World<'_, A>,
        entry: usize,
        number: u32,
    ) -> Result<bool, AllocError>
        ensures kept { IsMarked (world_of world.now) self.old → self.old.entry ≡ spec.marked_entry (world_of world.now) (bound_expr_of self.old.expression.now) → IfOk result (λ b. b ≡ not (spec.drops_by (world_of world.now) (bound_expr_of self.old.expression.now) entry number)) }
        ensures seen { seen_of self.new ≡ seen_of self.old }
        ensures marked { IsMarked (world_of world.now) self.old → IsMarked (world_of world.now) self.new }
    {
        if self.entry != Some(entry) || !has_row(world, entry, number) {
            return Ok(true);
        }
        self.make_on(alloc, world, entry, number)?;
        match self.marks.get(number) {
            Some(mark) => Ok(!drops(mark)),
            None => Ok(true),
        }
    }

    /// Where its columns are of an entry, `make` makes no more marks.
    pub fn forgo(&mut self, entry: usize)
        ensures seen { seen_of self.new ≡ seen_of self.old }
        ensures marks { self.new.marks ≡ self.old.marks }
        ensures on_null { self.new.on_null ≡ self.old.on_null }
        ensures others { self.old.entry ≢ Some entry → self.new ≡ self.old }
    {
        if self.entry == Some(entry) {
            self.is_kept = false;
        }
    }

    /// Makes the mark on the row, or the null row, that a combination has of its entry, unless it is made or `forgo` was called.
    pub fn make(
        &mut self,
        alloc: A,
        world: &World<'_, A>,
        combination: &Combo<A>,
    ) -> Result<(), AllocError>
        ensures seen { seen_of self.new ≡ seen_of self.old }
        ensures marked { IsMarked (world_of world.now) self.old → IsMarked (world_of world.now) self.new }
        ensures made { IsMarked (world_of world.now) self.old → self.old.is_kept ≡ true → (entry number : ℕ) → self.old.entry ≡ Some entry → slot_at combination.now entry ≡ slots.Row number → number < length (spec.entry_rows (world_of world.now) entry)
            → OnOk result (mark_at self.new.marks number ≡ Some (spec.mark_on (world_of world.now) entry (bound_expr_of self.old.expression.now) number)) }
    {
        let Some(entry) = self.entry else {
            return Ok(());
        };
        if !self.is_kept {
            return Ok(());
        }
        match combination.row(entry) {
            Slot::Row(number) => self.make_on(alloc, world, entry, number),
            Slot::NullRow => self.make_on_null(alloc, world),
            Slot::Absent => Ok(()),
        }
    }

    // The mark on the row, or the null row, that a combination has of its entry, if it is made.
    fn mark(&self, combination: &Combo<A>) -> Option<&Mark<A>>
        ensures { option_map (λ m. outcome_of m.now) result ≡ mark_of self.now combination.now }
    {
        match combination.row(self.entry?) {
            Slot::Row(number) => self.marks.get(number),
            Slot::NullRow => self.on_null.as_ref(),
            Slot::Absent => None,
        }
    }

    /// The value on a combination, whose rows are given: that of the mark, with its text lent and without memory, where it is made; or
    /// the first fault.
    pub fn outcome<'r, R: Row<A>>(
        &'r self,
        alloc: A,
        combination: &Combo<A>,
        row: &'r R,
        role: &'r str,
    ) -> Result<Val<'r, A>, Failure<Fault>>
        ensures value { Gives datum_of result (outcome_in (R.cells row.now) role.now combination.now self.now) }
        ensures in_place { IsSome (mark_of self.now combination.now) → HasMemory result }
    {
        match self.mark(combination) {
            Some(Mark::Value(value)) => Ok(value.as_val()),
            Some(Mark::Fault(fault)) => Err(Failure::Error(*fault)),
            None => eval(alloc, self.expression, row, role),
        }
    }
}
