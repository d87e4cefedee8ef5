//! The marks of a query.

ghost use Rattle.std.specs.Prelude.{◌≡◌, ℕ, IfOk, OnOk, false, map, not, option_map, true};
ghost use Rattle.expr.specs.Conjuncts.{fragile_conjuncts};
ghost use Rattle.expr.specs.View.{aggregate_call_of, aggregate_calls_of, bound_expr_of, bound_items_of};
ghost use Rattle.tuples.specs.View.{world_of};
ghost use Rattle.tuples.specs.World as spec_world;
ghost use Rattle.row_marks.specs.Marked as marked;
ghost use Rattle.row_marks.specs.Marked.{computed_entry, drops_first, keeps_row, marked_entry};
ghost use Rattle.row_marks.specs.Marks.{AllMade, AreMade, AreMadeArguments, AreMarked, AreMarkedArguments, AreMarksOf, IsMadeIf, IsMarkedIf, argument_seen, seen_of};
ghost use Rattle.row_marks.specs.Calls as spec;

use crate::calls::query_aggregates;
use crate::marked::{Marked, MarkedArgument};
use expr::{AggregateCall, BoundExpr, BoundItem, fragile_conjuncts};
use memory::Heap;
use std::alloc::AllocError;
use tuples::{Combo, World};

/// The expressions of a query that are evaluated on combinations, each with its marks.
#[derive(Drop)]
pub struct Marks<'w, A: Heap> {
    /// The fragile conjuncts, in written order.
    pub conditions: Vec<Marked<'w, A>, A>,
    /// The items of a query without groups.
    pub items: Vec<Marked<'w, A>, A>,
    /// The arguments of the aggregates, in written order; count(*) has none.
    pub arguments: Vec<MarkedArgument<'w, A>, A>,
}

// The conditions, of which no mark is made.
fn marked_conditions<'w, A: Heap>(
    alloc: A,
    world: &World<'w, A>,
    conditions: &[&'w BoundExpr<A>],
) -> Result<Vec<Marked<'w, A>, A>, AllocError>
    ensures seen { IfOk result (λ ms. map (λ m. seen_of m) ms.items ≡ map (λ e. (bound_expr_of e.now, marked_entry (world_of world.now) (bound_expr_of e.now))) conditions.now) }
    ensures marked { IfOk result (λ ms. AreMarked (world_of world.now) ms.items) }
{
    let mut marked = Vec::new(alloc);
    for condition in conditions {
        marked.push(Marked::new(alloc, world, *condition)?)?;
    }
    Ok(marked)
}

// The items, of which no mark is made.
fn marked_items<'w, A: Heap>(
    alloc: A,
    world: &World<'w, A>,
    items: &'w [BoundItem<A>],
) -> Result<Vec<Marked<'w, A>, A>, AllocError>
    ensures seen { IfOk result (λ ms. map (λ m. seen_of m) ms.items ≡ map (λ i. (i.value, computed_entry (world_of world.now) i.value)) (bound_items_of items.now)) }
    ensures marked { IfOk result (λ ms. AreMarked (world_of world.now) ms.items) }
{
    let mut marked = Vec::new(alloc);
    for item in items {
        marked.push(Marked::unless_column(alloc, world, &item.value)?)?;
    }
    Ok(marked)
}

// The items of a query without groups, of which no mark is made.
fn query_items<'w, A: Heap>(
    alloc: A,
    world: &World<'w, A>,
) -> Result<Vec<Marked<'w, A>, A>, AllocError>
    ensures seen { IfOk result (λ ms. (world_of world.now).query.is_grouped ≡ false → map (λ m. seen_of m) ms.items ≡ map (λ i. (i.value, computed_entry (world_of world.now) i.value)) (world_of world.now).query.items) }
    ensures marked { IfOk result (λ ms. AreMarked (world_of world.now) ms.items) }
{
    if world.query.is_grouped {
        Ok(Vec::new(alloc))
    } else {
        marked_items(alloc, world, world.query.items.as_slice())
    }
}

// The argument of an aggregate, of which no mark is made.
fn marked_argument<'w, A: Heap>(
    alloc: A,
    world: &World<'w, A>,
    argument: Option<&'w BoundExpr<A>>,
) -> Result<MarkedArgument<'w, A>, AllocError>
    ensures seen { IfOk result (λ a. argument_seen a ≡ option_map (λ e. (bound_expr_of e.now, computed_entry (world_of world.now) (bound_expr_of e.now))) argument.entry) }
    ensures marked { IfOk result (λ a. IsMarkedIf (world_of world.now) a.marked) }
{
    let marked = match argument {
        None => None,
        Some(expression) => Some(Marked::unless_column(alloc, world, expression)?),
    };
    Ok(MarkedArgument { marked })
}

// The arguments of the aggregates, of which no mark is made.
fn marked_arguments<'w, A: Heap>(
    alloc: A,
    world: &World<'w, A>,
    calls: &[AggregateCall<'w, A>],
) -> Result<Vec<MarkedArgument<'w, A>, A>, AllocError>
    ensures seen { IfOk result (λ ms. map (λ a. argument_seen a) ms.items ≡ map (λ c. option_map (λ e. (e, computed_entry (world_of world.now) e)) (aggregate_call_of c).argument) calls.now) }
    ensures marked { IfOk result (λ ms. AreMarkedArguments (world_of world.now) ms.items) }
{
    let mut marked = Vec::new(alloc);
    for call in calls {
        marked.push(marked_argument(alloc, world, call.argument)?)?;
    }
    Ok(marked)
}

// True where the entry is left joined in the text.
fn is_left<A: Heap>(world: &World<'_, A>, entry: usize) -> bool
    ensures { result ≡ marked.is_left (world_of world.now) entry }
{
    world.tables.len().saturating_sub(world.query.left_count) <= entry
}

impl<'w, A: Heap> Marks<'w, A> {
    /// Of a query with these aggregates, before the first is made. It fails where memory runs out.
    pub fn new(
        alloc: A,
        world: &World<'w, A>,
        calls: &[AggregateCall<'w, A>],
    ) -> Result<Marks<'w, A>, AllocError>
        requires calls { aggregate_calls_of calls.now ≡ spec.query_aggregates (world_of world.now).query }
        ensures { IfOk result (λ m. AreMarksOf (world_of world.now) m) }
    {
        let conditions = fragile_conjuncts(alloc, world.query)?;
        Ok(Marks {
            conditions: marked_conditions(alloc, world, conditions.as_slice())?,
            items: query_items(alloc, world)?,
            arguments: marked_arguments(alloc, world, calls)?,
        })
    }

    /// All marks of the query of a world: of each of its expressions that is over one entry alone, on each row of this entry that the
    /// role sees. None is made of a hidden row, so that no hidden row decides whether memory runs out. It fails where memory runs out.
    pub fn of(alloc: A, world: &World<'w, A>) -> Result<Marks<'w, A>, AllocError>
        ensures marks { IfOk result (λ m. AreMarksOf (world_of world.now) m) }
        ensures made { IfOk result (λ m. AllMade (world_of world.now) m) }
    {
        let calls = query_aggregates(alloc, world.query)?;
        let mut marks = Marks::new(alloc, world, calls.as_slice())?;
        make_all_seen(alloc, world, &mut marks.conditions)?;
        make_all_seen(alloc, world, &mut marks.items)?;
        make_seen_arguments(alloc, world, &mut marks.arguments)?;
        Ok(marks)
    }

    /// The fragile conjuncts with their marks, in written order.
    pub fn conditions(&self) -> &[Marked<'w, A>]
        ensures { result.now ≡ self.now.conditions.items }
    {
        self.conditions.as_slice()
    }

    /// The items of a query without groups, with their marks.
    pub fn items(&self) -> &[Marked<'w, A>]
        ensures { result.now ≡ self.now.items.items }
    {
        self.items.as_slice()
    }

    /// The arguments of the aggregates with their marks, in written order; count(*) has none.
    pub fn arguments(&self) -> &[MarkedArgument<'w, A>]
        ensures { result.now ≡ self.now.arguments.items }
    {
        self.arguments.as_slice()
    }

    /// False only where the first fragile conjunct drops no row of an entry.
    pub fn chooses(&self, entry: usize) -> bool
        ensures { (w : spec_world.World) → AreMarksOf w self.now → result ≡ false → (number : ℕ) → keeps_row w entry number ≡ true }
    {
        self.first_chooses(entry)
    }

    // False only where the first fragile conjunct is false or null on no row of an entry that it is over alone.
    fn first_chooses(&self, entry: usize) -> bool
        ensures { (w : spec_world.World) → AreMarksOf w self.now → result ≡ false → (number : ℕ) → not (drops_first w (fragile_conjuncts w.query) entry number) ≡ true }
    {
        match self.conditions.first() {
            Some(first) => first.entry == Some(entry),
            None => false,
        }
    }

    // False where the first fragile conjunct is over an entry alone, and false or null on its row of a number.
    fn first_keeps_row(
        &mut self,
        alloc: A,
        world: &World<'_, A>,
        entry: usize,
        number: u32,
    ) -> Result<bool, AllocError>
        ensures kept { AreMarksOf (world_of world.now) self.old → IfOk result (λ b. b ≡ not (drops_first (world_of world.now) (fragile_conjuncts (world_of world.now).query) entry number)) }
        ensures marks { AreMarksOf (world_of world.now) self.old → AreMarksOf (world_of world.now) self.new }
    {
        if self.conditions.is_empty() {
            return Ok(true);
        }
        self.conditions[0].keeps_row(alloc, world, entry, number)
    }

    /// False where the first fragile conjunct drops a row of an entry that is not left joined: it is false or null on it. A fault drops
    /// nothing.
    pub fn keeps_row(
        &mut self,
        alloc: A,
        world: &World<'_, A>,
        entry: usize,
        number: u32,
    ) -> Result<bool, AllocError>
        ensures kept { AreMarksOf (world_of world.now) self.old → IfOk result (λ b. b ≡ keeps_row (world_of world.now) entry number) }
        ensures marks { AreMarksOf (world_of world.now) self.old → AreMarksOf (world_of world.now) self.new }
    {
        if is_left(world, entry) {
            return Ok(true);
        }
        self.first_keeps_row(alloc, world, entry, number)
    }

    /// Makes no more marks for combinations on the rows of an entry; those that are made stay.
    pub fn forgo(&mut self, entry: usize)
        ensures { (w : spec_world.World) → AreMarksOf w self.old → AreMarksOf w self.new }
    {
        forgo_all(&mut self.conditions, entry);
        forgo_all(&mut self.items, entry);
        forgo_arguments(&mut self.arguments, entry);
    }

    /// Makes the marks of what is evaluated on a combination that the conditions keep, those that are not made.
    pub fn make_kept(
        &mut self,
        alloc: A,
        world: &World<'_, A>,
        combination: &Combo<A>,
    ) -> Result<(), AllocError>
        ensures { AreMarksOf (world_of world.now) self.old → OnOk result (AreMarksOf (world_of world.now) self.new) }
    {
        if world.query.is_grouped {
            make_arguments(alloc, world, &mut self.arguments, combination)
        } else {
            make_all(alloc, world, &mut self.items, combination)
        }
    }

    // What `first_keeps_row` answers, by the marks that are made.
    fn first_keeps(
        &self,
        alloc: A,
        world: &World<'_, A>,
        entry: usize,
        number: u32,
    ) -> Result<bool, AllocError>
        ensures { AreMarksOf (world_of world.now) self.now → IfOk result (λ b. b ≡ not (drops_first (world_of world.now) (fragile_conjuncts (world_of world.now).query) entry number)) }
    {
        match self.conditions.first() {
            Some(first) => first.keeps(alloc, world, entry, number),
            None => Ok(true),
        }
    }

    /// What `keeps_row` answers, by the marks that are made: where that of the first fragile conjunct on the row is not, the conjunct is
    /// evaluated. It fails where memory runs out.
    pub fn keeps(
        &self,
        alloc: A,
        world: &World<'_, A>,
        entry: usize,
        number: u32,
    ) -> Result<bool, AllocError>
        ensures { AreMarksOf (world_of world.now) self.now → IfOk result (λ b. b ≡ keeps_row (world_of world.now) entry number) }
    {
        if is_left(world, entry) {
            return Ok(true);
        }
        self.first_keeps(alloc, world, entry, number)
    }
}

// Makes the marks of expressions on the rows that the role sees, and on no other.
fn make_all_seen<A: Heap>(
    alloc: A,
    world: &World<'_, A>,
    marked: &mut Vec<Marked<'_, A>, A>,
) -> Result<(), AllocError>
    ensures seen { OnOk result (map (λ m. seen_of m) marked.new.items ≡ map (λ m. seen_of m) marked.old.items) }
    ensures marked { AreMarked (world_of world.now) marked.old.items → OnOk result (AreMarked (world_of world.now) marked.new.items) }
    ensures made { OnOk result (AreMade (world_of world.now) marked.new.items) }
{
    for index in 0..marked.len() {
        marked[index].make_seen(alloc, world)?;
    }
    Ok(())
}

// Makes the marks of an argument on the rows that the role sees, and on no other.
fn make_seen_argument<A: Heap>(
    alloc: A,
    world: &World<'_, A>,
    argument: &mut MarkedArgument<'_, A>,
) -> Result<(), AllocError>
    ensures seen { argument_seen argument.new ≡ argument_seen argument.old }
    ensures marked { IsMarkedIf (world_of world.now) argument.old.marked → IsMarkedIf (world_of world.now) argument.new.marked }
    ensures made { OnOk result (IsMadeIf (world_of world.now) argument.new.marked) }
{
    match &mut argument.marked {
        None => Ok(()),
        Some(marked) => marked.make_seen(alloc, world),
    }
}

// Makes the marks of arguments on the rows that the role sees, and on no other.
fn make_seen_arguments<A: Heap>(
    alloc: A,
    world: &World<'_, A>,
    arguments: &mut Vec<MarkedArgument<'_, A>, A>,
) -> Result<(), AllocError>
    ensures seen { OnOk result (map (λ a. argument_seen a) arguments.new.items ≡ map (λ a. argument_seen a) arguments.old.items) }
    ensures marked { AreMarkedArguments (world_of world.now) arguments.old.items → OnOk result (AreMarkedArguments (world_of world.now) arguments.new.items) }
    ensures made { OnOk result (AreMadeArguments (world_of world.now) arguments.new.items) }
{
    for index in 0..arguments.len() {
        make_seen_argument(alloc, world, &mut arguments[index])?;
    }
    Ok(())
}

// Makes no more marks of expressions for combinations on the rows of an entry.
fn forgo_all<A: Heap>(marked: &mut Vec<Marked<'_, A>, A>, entry: usize)
    ensures seen { map (λ m. seen_of m) marked.new.items ≡ map (λ m. seen_of m) marked.old.items }
    ensures marked { (w : spec_world.World) → AreMarked w marked.old.items → AreMarked w marked.new.items }
{
    for index in 0..marked.len() {
        marked[index].forgo(entry);
    }
}

// Makes no more marks of an argument for combinations on the rows of an entry.
fn forgo_argument<A: Heap>(argument: &mut MarkedArgument<'_, A>, entry: usize)
    ensures seen { argument_seen argument.new ≡ argument_seen argument.old }
    ensures marked { (w : spec_world.World) → IsMarkedIf w argument.old.marked → IsMarkedIf w argument.new.marked }
{
    if let Some(marked) = &mut argument.marked {
        marked.forgo(entry);
    }
}

// Makes no more marks of arguments for combinations on the rows of an entry.
fn forgo_arguments<A: Heap>(arguments: &mut Vec<MarkedArgument<'_, A>, A>, entry: usize)
    ensures seen { map (λ a. argument_seen a) arguments.new.items ≡ map (λ a. argument_seen a) arguments.old.items }
    ensures marked { (w : spec_world.World) → AreMarkedArguments w arguments.old.items → AreMarkedArguments w arguments.new.items }
{
    for index in 0..arguments.len() {
        forgo_argument(&mut arguments[index], entry);
    }
}

// Makes the marks of expressions on the rows of a combination, those that are not made.
fn make_all<A: Heap>(
    alloc: A,
    world: &World<'_, A>,
    marked: &mut Vec<Marked<'_, A>, A>,
    combination: &Combo<A>,
) -> Result<(), AllocError>
    ensures seen { OnOk result (map (λ m. seen_of m) marked.new.items ≡ map (λ m. seen_of m) marked.old.items) }
    ensures marked { AreMarked (world_of world.now) marked.old.items → OnOk result (AreMarked (world_of world.now) marked.new.items) }
{
    for index in 0..marked.len() {
        marked[index].make(alloc, world, combination)?;
    }
    Ok(())
}

// Makes the mark of an argument on the row of a combination, unless it is made.
fn make_argument<A: Heap>(
    alloc: A,
    world: &World<'_, A>,
    argument: &mut MarkedArgument<'_, A>,
    combination: &Combo<A>,
) -> Result<(), AllocError>
    ensures seen { argument_seen argument.new ≡ argument_seen argument.old }
    ensures marked { IsMarkedIf (world_of world.now) argument.old.marked → IsMarkedIf (world_of world.now) argument.new.marked }
{
    match &mut argument.marked {
        None => Ok(()),
        Some(marked) => marked.make(alloc, world, combination),
    }
}

// Makes the marks of arguments on the rows of a combination, those that are not made.
fn make_arguments<A: Heap>(
    alloc: A,
    world: &World<'_, A>,
    arguments: &mut Vec<MarkedArgument<'_, A>, A>,
    combination: &Combo<A>,
) -> Result<(), AllocError>
    ensures seen { OnOk result (map (λ a. argument_seen a) arguments.new.items ≡ map (λ a. argument_seen a) arguments.old.items) }
    ensures marked { AreMarkedArguments (world_of world.now) arguments.old.items → OnOk result (AreMarkedArguments (world_of world.now) arguments.new.items) }
{
    for index in 0..arguments.len() {
        make_argument(alloc, world, &mut arguments[index], combination)?;
    }
    Ok(())
}
