//! The tables of a world, their indexes, and the run of codes over them.

ghost use Rattle.std.specs.Prelude.{◌≡◌, [], ℕ, IfOk, List, Some, length, map, slice_get, slice_index_or};
ghost use Rattle.fixture_plans.specs.Worlds.{AreOf};
ghost use Rattle.tuples.specs.View.{guard_of, world_of};
ghost use Rattle.row_marks.specs.Marks.{AreMarksOf};

use executor::{run, run_into};
use expr::{BoundQuery, Code, ColumnId};
use indexes::{IndexRows, indexes_of};
use marked_runs::run_marked;
use memory::{Heap, Items};
use row_marks::Marks;
use std::alloc::{AllocError, Global};
use tables::Table;
use trailcheck::{Setting, is_admissible};
use tuples::{Combo, Guard, GuardedTable, Sink, Work, World};

/// Each table with its guard.
pub fn tables_of<'w, A: Heap>(
    alloc: A,
    rows: &'w [&'w Table<A>],
    frame: &'w [Guard<A>],
) -> Result<Vec<GuardedTable<'w, A>, A>, AllocError>
    ensures { IfOk result (λ tables. map (λ t. guard_of t.guard.now) tables.items ≡ map guard_of frame.now) }
{
    let mut tables = Vec::new(alloc);
    for (entry, guard) in frame.iter().enumerate() {
        let Some(rows) = rows.get(entry) else {
            return Err(AllocError);
        };
        let table = GuardedTable {
            rows,
            guard,
            seen: None,
        };
        tables.push(table)?;
    }
    Ok(tables)
}

// Of each table its indexes on these columns.
fn indexes_of_tables<A: Heap>(
    alloc: A,
    tables: &[GuardedTable<'_, A>],
    indexed: &[Items<u64, A>],
) -> Result<Items<Items<IndexRows<A>, A>, A>, AllocError>
    ensures long { IfOk result (λ all. length all ≡ length indexed.now) }
    ensures each { IfOk result (λ all. (entry : ℕ) (columns : List ℕ) → slice_get indexed.now entry ≡ Some columns → AreOf tables.now entry columns (slice_index_or all entry [])) }
{
    let mut all = Items::new(alloc);
    for (entry, columns) in indexed.iter().enumerate() {
        let Some(table) = tables.get(entry) else {
            return Err(AllocError);
        };
        all.push(indexes_of(alloc, table.rows, columns.as_slice())?)?;
    }
    Ok(all)
}

// The indexes, lent.
fn lent<A: Heap>(
    alloc: A,
    indexes: &[Items<IndexRows<A>, A>],
) -> Result<Vec<&[IndexRows<A>], A>, AllocError>
    ensures { IfOk result (λ lent. map (λ xs. xs.now) lent.items ≡ indexes.now) }
{
    let mut all = Vec::new(alloc);
    for these in indexes {
        all.push(these.as_slice())?;
    }
    Ok(all)
}

/// A query without items and conditions, for a run, which reads nothing of it.
pub fn no_query(alloc: Global) -> BoundQuery<Global> {
    BoundQuery {
        items: Items::new(alloc),
        ons: Items::new(alloc),
        left_count: 0,
        filter: None,
        group_by: Items::new(alloc),
        having: None,
        is_grouped: false,
        order_by: Items::new(alloc),
        limit: None,
    }
}

/// The combinations that the run of a code gives, with indexes that are made for it; none where no plan may have the code.
pub fn run_over<A: Heap>(
    alloc: A,
    world: &World<'_, A>,
    setting: &Setting<A>,
    code: &Code<A>,
    wanted: Option<ColumnId>,
    work: &mut Work,
) -> Result<Option<Items<Combo<A>, A>>, AllocError>
    requires { map guard_of setting.now.frame ≡ map (λ t. guard_of t.guard.now) world.now.tables.now }
{
    let indexes = indexes_of_tables(alloc, world.tables, setting.indexed.as_slice())?;
    let lent = lent(alloc, indexes.as_slice())?;
    if !is_admissible(alloc, setting, code)? {
        return Ok(None);
    }
    let combinations = run(alloc, world, setting, &lent, code, wanted, work)?;
    Ok(Some(combinations))
}

/// Gives a sink, which has taken nothing, the combinations of the run of a code that it wants, in any order, with indexes that are
/// made for it. False where no plan may have the code, of which it gives nothing.
pub fn run_into_over<A: Heap, K: Sink<Combo<A>>>(
    alloc: A,
    world: &World<'_, A>,
    setting: &Setting<A>,
    code: &Code<A>,
    sink: &mut K,
    work: &mut Work,
) -> Result<bool, AllocError>
    requires guards { map guard_of setting.now.frame ≡ map (λ t. guard_of t.guard.now) world.now.tables.now }
    requires fresh { K.took sink.old (world_of world.now) [] }
{
    let indexes = indexes_of_tables(alloc, world.tables, setting.indexed.as_slice())?;
    let lent = lent(alloc, indexes.as_slice())?;
    if !is_admissible(alloc, setting, code)? {
        return Ok(false);
    }
    run_into(alloc, world, setting, &lent, code, sink, work)?;
    Ok(true)
}

/// The combinations that the run of a code gives by marks of the query, with indexes that are made for it; none where no plan may have
/// the code.
pub fn run_marked_over<A: Heap>(
    alloc: A,
    world: &World<'_, A>,
    setting: &Setting<A>,
    code: &Code<A>,
    marks: &Marks<'_, A>,
    work: &mut Work,
) -> Result<Option<Items<Combo<A>, A>>, AllocError>
    requires guards { map guard_of setting.now.frame ≡ map (λ t. guard_of t.guard.now) world.now.tables.now }
    requires marks { AreMarksOf (world_of world.now) marks.now }
{
    let indexes = indexes_of_tables(alloc, world.tables, setting.indexed.as_slice())?;
    let lent = lent(alloc, indexes.as_slice())?;
    if !is_admissible(alloc, setting, code)? {
        return Ok(None);
    }
    let combinations = run_marked(alloc, world, setting, &lent, code, marks, work)?;
    Ok(Some(combinations))
}
