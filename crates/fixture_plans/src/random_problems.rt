//! Small problems that are drawn from a seed. Each table has two columns.

use crate::random::Random;
use expr::{
    BoundExpr, ColumnId, Copied, MovableExpr, comparison, conjunction, disjunction, literal,
    null_check,
};
use memory::{Items, boxed};
use stats::{Bounds, ColumnStats, Stats};
use std::alloc::{AllocError, Global};
use trailcheck::Setting;
use tuples::Guard;
use value::{Comparison, Value};

/// What the plans of a query are made from, the statistics of each entry, and the column by which its rows are wanted in order.
#[derive(Drop)]
pub struct Drawn {
    /// The guards, the indexes and the conditions.
    pub setting: Box<Setting<Global>, Global>,
    /// The statistics of each entry.
    pub statistics: Items<Stats<Global>, Global>,
    /// The column.
    pub wanted: Option<ColumnId>,
}

// ---- statistics

fn bounds(random: &mut Random) -> Option<Bounds> {
    if random.once_in(4) {
        return None;
    }
    let least = random.below(10) as i64;
    Some(Bounds {
        least,
        greatest: least + random.below(20) as i64,
    })
}

fn stats(alloc: Global, random: &mut Random) -> Result<Stats<Global>, AllocError> {
    if random.once_in(6) {
        return Ok(Stats::unknown());
    }
    let most = if random.once_in(2) { 2000 } else { 12 };
    let rows = random.below(most);
    let mut columns = Items::new(alloc);
    for _ in 0..2 {
        columns.push(ColumnStats {
            distinct: random.below(rows + 1),
            bounds: bounds(random),
        })?;
    }
    Ok(Stats::Known { rows, columns })
}

// ---- conditions

fn column(random: &mut Random, count: u64) -> ColumnId {
    ColumnId {
        entry: random.below(count) as usize,
        column: random.below(2) as usize,
    }
}

// Two columns, mostly of two entries.
fn two_columns(random: &mut Random, count: u64) -> (ColumnId, ColumnId) {
    let left = column(random, count);
    let right = column(random, count);
    if left.entry == right.entry {
        (left, column(random, count))
    } else {
        (left, right)
    }
}

fn column_expr(alloc: Global, id: ColumnId) -> Copied<Global> {
    boxed(alloc, BoundExpr::Column(id))
}

fn number(alloc: Global, random: &mut Random) -> Copied<Global> {
    literal(alloc, Ok(Value::Int(random.below(24) as i64)))
}

fn operator(random: &mut Random) -> Comparison {
    match random.below(6) {
        0 => Comparison::Equal,
        1 => Comparison::NotEqual,
        2 => Comparison::Less,
        3 => Comparison::LessOrEqual,
        4 => Comparison::Greater,
        _ => Comparison::GreaterOrEqual,
    }
}

// Two columns that are compared, mostly for equality.
fn of_columns(alloc: Global, random: &mut Random, count: u64) -> Copied<Global> {
    let (left, right) = two_columns(random, count);
    let left = column_expr(alloc, left)?;
    let right = column_expr(alloc, right);
    let operator = if random.once_in(6) {
        operator(random)
    } else {
        Comparison::Equal
    };
    comparison(alloc, operator, 0, left, right)
}

// A column that is compared with a number, on either side.
fn of_number(alloc: Global, random: &mut Random, count: u64) -> Copied<Global> {
    let column = column_expr(alloc, column(random, count))?;
    let number = number(alloc, random)?;
    let operator = operator(random);
    if random.once_in(2) {
        comparison(alloc, operator, 0, column, Ok(number))
    } else {
        comparison(alloc, operator, 0, number, Ok(column))
    }
}

// One comparison of columns or another.
fn of_either(alloc: Global, random: &mut Random, count: u64) -> Copied<Global> {
    let mut members = Vec::new(alloc);
    for _ in 0..2 {
        members.push(Box::into_inner(of_columns(alloc, random, count)?))?;
    }
    disjunction(alloc, 0, Ok(members))
}

fn condition(alloc: Global, random: &mut Random, count: u64) -> Copied<Global> {
    match random.below(28) {
        0 => literal(alloc, Ok(Value::Bool(random.once_in(2)))),
        1 | 2 => of_either(alloc, random, count),
        3 | 4 => {
            let operand = column_expr(alloc, column(random, count));
            null_check(alloc, random.once_in(2), 0, operand)
        }
        5..=11 => of_number(alloc, random, count),
        _ => of_columns(alloc, random, count),
    }
}

fn conditions(
    alloc: Global,
    random: &mut Random,
    count: u64,
) -> Result<Items<MovableExpr<Global>, Global>, AllocError> {
    let mut conditions = Items::new(alloc);
    for _ in 0..random.below(7) {
        if let Some(condition) = MovableExpr::new(condition(alloc, random, count)?) {
            conditions.push(condition)?;
        }
    }
    Ok(conditions)
}

// The ON of a left joined entry: mostly that a column of it is equal to one of an entry before it, and sometimes one condition more.
fn on(alloc: Global, random: &mut Random, entry: u64) -> Copied<Global> {
    let own = ColumnId {
        entry: entry as usize,
        column: random.below(2) as usize,
    };
    let own = column_expr(alloc, own)?;
    let other = column_expr(alloc, column(random, entry));
    let mut members = Vec::new(alloc);
    if !random.once_in(6) {
        let equality = comparison(alloc, Comparison::Equal, 0, own, other)?;
        members.push(Box::into_inner(equality))?;
    }
    if members.len() == 0 || random.once_in(3) {
        let more = condition(alloc, random, entry.saturating_add(1))?;
        members.push(Box::into_inner(more))?;
    }
    match members.pop() {
        Some(only) if members.len() == 0 => boxed(alloc, only),
        Some(last) => {
            members.push(last)?;
            conjunction(alloc, 0, Ok(members))
        }
        None => literal(alloc, Ok(Value::Bool(true))),
    }
}

// Those of the last so many entries.
fn ons(
    alloc: Global,
    random: &mut Random,
    count: u64,
    lefts: u64,
) -> Result<Items<MovableExpr<Global>, Global>, AllocError> {
    let mut ons = Items::new(alloc);
    for entry in count.saturating_sub(lefts)..count {
        if let Some(on) = MovableExpr::new(on(alloc, random, entry)?) {
            ons.push(on)?;
        }
    }
    Ok(ons)
}

// ---- problems

// The numbers of the columns of an entry that have an index: the more entries, the fewer.
fn indexed(
    alloc: Global,
    random: &mut Random,
    count: u64,
) -> Result<Items<u64, Global>, AllocError> {
    let mut columns = Items::new(alloc);
    for column in 1..3 {
        if random.once_in(count.saturating_add(1)) {
            columns.push(column)?;
        }
    }
    Ok(columns)
}

/// A problem of so many entries.
pub fn draw(alloc: Global, random: &mut Random, count: u64) -> Result<Drawn, AllocError> {
    draw_left(alloc, random, count, 0)
}

/// A problem of so many entries, of which the last so many are left joined.
pub fn draw_left(
    alloc: Global,
    random: &mut Random,
    count: u64,
    lefts: u64,
) -> Result<Drawn, AllocError> {
    let mut frame = Items::new(alloc);
    let mut all_indexed = Items::new(alloc);
    let mut statistics = Items::new(alloc);
    for _ in 0..count {
        frame.push(Guard::All)?;
        all_indexed.push(indexed(alloc, random, count)?)?;
        statistics.push(stats(alloc, random)?)?;
    }
    let setting = Setting {
        frame,
        indexed: all_indexed,
        conditions: conditions(alloc, random, count)?,
        lefts: ons(alloc, random, count, lefts)?,
    };
    let wanted = if random.once_in(2) {
        Some(column(random, count))
    } else {
        None
    };
    Ok(Drawn {
        setting: boxed(alloc, setting)?,
        statistics,
        wanted,
    })
}
