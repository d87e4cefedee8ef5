//! Queries and rows that are drawn from a seed, as texts.

use fixture_plans::Random;
use std::alloc::{AllocError, Global};

/// The tables of the queries, with a policy each.
pub const SCHEMA: &str = "CREATE ROLE alice;
CREATE TABLE t (a bigint, b bigint, w text); CREATE TABLE u (a bigint, b bigint, w text);
CREATE INDEX t_by_a ON t (a); CREATE INDEX u_by_b ON u (b);
ALTER TABLE t ENABLE ROW LEVEL SECURITY; ALTER TABLE u ENABLE ROW LEVEL SECURITY;
CREATE POLICY shown ON t USING (w <> 'hidden'); CREATE POLICY small ON u USING (a < 2 OR w IS NULL);
GRANT SELECT ON t TO alice; GRANT SELECT ON u TO alice;";

// ---- rows

// Adds a number below 3, or null.
fn push_cell(text: &mut String, random: &mut Random) -> Result<(), AllocError> {
    match random.below(4) {
        3 => text.push_str("\\N"),
        number => write!(text, "{number}"),
    }
}

// Adds a word, which is mostly a number.
fn push_word(text: &mut String, random: &mut Random) -> Result<(), AllocError> {
    match random.below(8) {
        5 => text.push_str("x"),
        6 => text.push_str("hidden"),
        7 => text.push_str("\\N"),
        number => write!(text, "{number}"),
    }
}

/// Two to six rows of one of the tables.
pub fn drawn_rows(alloc: Global, random: &mut Random) -> Result<String, AllocError> {
    let mut text = String::new(alloc);
    text.push_str("a,b,w\n")?;
    for _ in 0..random.below(5).wrapping_add(2) {
        push_cell(&mut text, random)?;
        text.push_str(",")?;
        push_cell(&mut text, random)?;
        text.push_str(",")?;
        push_word(&mut text, random)?;
        text.push_str("\n")?;
    }
    Ok(text)
}

// ---- expressions

fn alias(entry: u64) -> &'static str {
    match entry {
        0 => "x",
        1 => "y",
        _ => "z",
    }
}

// Adds a column of numbers.
fn push_column(text: &mut String, random: &mut Random, entry: u64) -> Result<(), AllocError> {
    let column = if random.once_in(2) { "a" } else { "b" };
    write!(text, "{}.{column}", alias(entry))
}

// Adds a number over the columns of one entry or of two.
fn push_number_of(
    text: &mut String,
    random: &mut Random,
    entry: u64,
    other: u64,
) -> Result<(), AllocError> {
    let one = alias(entry);
    let two = alias(other);
    match random.below(8) {
        0 => {
            push_column(text, random, entry)?;
            text.push_str(" / ")?;
            push_column(text, random, other)
        }
        1 => write!(text, "{one}.a % {two}.b"),
        2 => write!(text, "6 / {one}.b"),
        3 => write!(text, "CAST({one}.w AS bigint)"),
        4 => write!(text, "({one}.a + 1) * {two}.b"),
        5 => write!(
            text,
            "CASE WHEN {one}.a = 1 THEN 6 / {two}.b ELSE {two}.a END"
        ),
        6 => write!(text, "{one}.b - {two}.a"),
        _ => push_column(text, random, entry),
    }
}

// Adds a number over the first so many entries, mostly over one of them.
fn push_number(text: &mut String, random: &mut Random, entries: u64) -> Result<(), AllocError> {
    let entry = random.below(entries);
    let other = if random.once_in(3) {
        random.below(entries)
    } else {
        entry
    };
    push_number_of(text, random, entry, other)
}

// Adds a number that is compared with another.
fn push_comparison(text: &mut String, random: &mut Random, entries: u64) -> Result<(), AllocError> {
    push_number(text, random, entries)?;
    text.push_str(match random.below(3) {
        0 => " < 2",
        1 => " <> 1",
        _ => " >= 0",
    })
}

// Adds conjuncts.
fn push_conjunct(text: &mut String, random: &mut Random, entries: u64) -> Result<(), AllocError> {
    let one = alias(random.below(entries));
    let two = alias(random.below(entries));
    match random.below(10) {
        0 => write!(text, "{one}.b <> 0 AND {one}.w < 'a'"),
        1 => write!(text, "{one}.b > 0"),
        2 => write!(text, "{one}.a = {two}.b"),
        3 => write!(text, "{one}.a IS NOT NULL"),
        4 => write!(text, "CAST({one}.a AS text) <> '1'"),
        5 => text.push_str("1 / 2 = 0"),
        _ => push_comparison(text, random, entries),
    }
}

// ---- clauses

// Adds the entries: by commas, or by JOIN with conditions.
fn push_from(text: &mut String, random: &mut Random, entries: u64) -> Result<(), AllocError> {
    let is_joined = random.once_in(3);
    for entry in 0..entries {
        text.push_str(match entry {
            0 => " FROM ",
            _ if is_joined => " JOIN ",
            _ => ", ",
        })?;
        let table = if random.once_in(2) { "t" } else { "u" };
        write!(text, "{table} {}", alias(entry))?;
        if is_joined && entry > 0 {
            text.push_str(" ON ")?;
            push_conjunct(text, random, entry.wrapping_add(1))?;
        }
    }
    Ok(())
}

// Adds WHERE, of up to three parts.
fn push_where(text: &mut String, random: &mut Random, entries: u64) -> Result<(), AllocError> {
    for number in 0..random.below(4) {
        text.push_str(if number == 0 { " WHERE " } else { " AND " })?;
        push_conjunct(text, random, entries)?;
    }
    Ok(())
}

fn push_item(text: &mut String, random: &mut Random, entries: u64) -> Result<(), AllocError> {
    let one = alias(random.below(entries));
    match random.below(6) {
        0 => write!(text, "CAST({one}.a AS text)"),
        1 => write!(text, "{one}.w"),
        _ => push_number(text, random, entries),
    }
}

// Adds an aggregate.
fn push_aggregate(text: &mut String, random: &mut Random, entries: u64) -> Result<(), AllocError> {
    let name = match random.below(6) {
        0 => return text.push_str("count(*)"),
        1 => return write!(
            text,
            "max(CAST({}.a AS text))",
            alias(random.below(entries))
        ),
        2 => "count",
        3 => "min",
        _ => "sum",
    };
    write!(text, "{name}(")?;
    push_number(text, random, entries)?;
    text.push_str(")")
}

// Up to two columns of GROUP BY.
fn keys(alloc: Global, random: &mut Random, entries: u64) -> Result<String, AllocError> {
    let one = alias(random.below(entries));
    let two = alias(random.below(entries));
    match random.below(4) {
        0 => format!(in alloc; "{one}.a"),
        1 => format!(in alloc; "{two}.w"),
        2 => format!(in alloc; "{one}.a, {two}.w"),
        _ => Ok(String::new(alloc)),
    }
}

// A query of groups, each of whose items is a column of GROUP BY or an aggregate, without its limit.
fn grouped(alloc: Global, random: &mut Random, entries: u64) -> Result<String, AllocError> {
    let keys = keys(alloc, random, entries)?;
    let mut text = format!(in alloc; "SELECT {keys}")?;
    for number in 0..random.below(2).wrapping_add(1) {
        if number > 0 || !keys.is_empty() {
            text.push_str(", ")?;
        }
        push_aggregate(&mut text, random, entries)?;
    }
    push_from(&mut text, random, entries)?;
    push_where(&mut text, random, entries)?;
    if !keys.is_empty() {
        write!(text, " GROUP BY {keys}")?;
    }
    Ok(text)
}

// A query without groups, without its limit.
fn ungrouped(alloc: Global, random: &mut Random, entries: u64) -> Result<String, AllocError> {
    let mut text = String::new(alloc);
    for number in 0..random.below(2).wrapping_add(1) {
        text.push_str(if number == 0 { "SELECT " } else { ", " })?;
        push_item(&mut text, random, entries)?;
    }
    push_from(&mut text, random, entries)?;
    push_where(&mut text, random, entries)?;
    Ok(text)
}

/// A query over so many entries, up to three.
pub fn drawn_query(alloc: Global, random: &mut Random, entries: u64) -> Result<String, AllocError> {
    let mut text = if random.once_in(3) {
        grouped(alloc, random, entries)?
    } else {
        ungrouped(alloc, random, entries)?
    };
    if random.once_in(8) {
        text.push_str(" LIMIT 0")?;
    }
    Ok(text)
}
