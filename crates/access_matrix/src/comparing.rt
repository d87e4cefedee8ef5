//! What roles gain and lose by a change of the schema.

ghost use Rattle.std.specs.Prelude.{◌≡◌, ◌&&◌, ◌++◌, [], ◌∷◌, IfOk, OnOk, filter, map, not};
ghost use Rattle.std.specs.List.{flat_map, list_any};
ghost use Rattle.answer_rows.specs.Growing.{only, with_value};
ghost use Rattle.store.specs.Database.{Database};
ghost use Rattle.replies.specs.Reply as reply;
ghost use Rattle.replies.specs.View.{reply_of};
ghost use Rattle.access_matrix.specs.Changes as spec;
ghost use Rattle.access_matrix.specs.Sights.{IsGain, IsReported, IsSight, pair_of};

use crate::gains::{Gain, are_any, gain_of, is_any};
use crate::names::{roles_of_either, tables_of_either};
use crate::report::{Changes, Pair, Report};
use crate::sights::{Sight, sight_of};
use crate::values::{headings, push_count, push_text};
use crate::words::joined;
use answer_rows::AnswerRows;
use memory::Heap;
use replies::Reply;
use std::alloc::AllocError;
use store::Store;
use value::Val;

// A store before a change and one after it.
#[derive(Clone, Copy)]
struct Stores<'s, A: Heap> {
    old: &'s Store<A>,
    new: &'s Store<A>,
}

// Adds names as a value, null where there is none.
fn push_names<A: Heap>(alloc: A, rows: &mut AnswerRows<A>, names: &[&str]) -> Result<(), AllocError>
    ensures { OnOk result (rows.new ≡ with_value rows.old (spec.names_value (map (λ n. n.now) names.now))) }
{
    if names.is_empty() {
        return rows.push(&Val::Null);
    }
    let words = joined(alloc, names)?;
    push_text(rows, words.as_str())
}

// Adds the row of a role and a table.
fn push_row<A: Heap>(
    alloc: A,
    rows: &mut AnswerRows<A>,
    pair: Pair<'_>,
    gained: &Gain<'_, A>,
    lost: &Gain<'_, A>,
) -> Result<(), AllocError>
    requires { rows.old.unfinished ≡ [] }
    ensures { (old new : Database) → IsGain old new pair.entry.role.now pair.entry.table.now gained.now → IsGain new old pair.entry.role.now pair.entry.table.now lost.now → OnOk result (rows.new ≡ only (rows.old.rows ++ spec.change_row old new (pair_of pair.entry) ∷ [])) }
{
    push_text(rows, pair.role)?;
    push_text(rows, pair.table)?;
    push_count(rows, gained.rows as u64)?;
    push_count(rows, lost.rows as u64)?;
    push_names(alloc, rows, gained.columns.as_slice())?;
    push_names(alloc, rows, lost.columns.as_slice())?;
    rows.finish_row()
}

// Adds the row of a role and a table of which the role gains or loses something. The result is true where it gains something.
fn push_change<A: Heap>(
    alloc: A,
    rows: &mut AnswerRows<A>,
    pair: Pair<'_>,
    old: &Sight<'_, A>,
    new: &Sight<'_, A>,
) -> Result<bool, AllocError>
    requires { rows.old.unfinished ≡ [] }
    ensures rows { (before after : Database) → IsSight before pair.entry.role.now pair.entry.table.now old.now → IsSight after pair.entry.role.now pair.entry.table.now new.now → OnOk result (rows.new ≡ only (rows.old.rows ++ map (λ p. spec.change_row before after p) (filter (λ p. spec.is_changed before after p) (pair_of pair.entry ∷ [])))) }
    ensures gains { (before after : Database) → IsSight before pair.entry.role.now pair.entry.table.now old.now → IsSight after pair.entry.role.now pair.entry.table.now new.now → IfOk result (λ gains. gains ≡ spec.gains before after pair.entry.role.now pair.entry.table.now) }
{
    let gained = gain_of(alloc, old, new)?;
    let lost = gain_of(alloc, new, old)?;
    if !are_any(&gained, &lost) {
        return Ok(false);
    }
    push_row(alloc, rows, pair, &gained, &lost)?;
    Ok(is_any(&gained))
}

// True where a role and a table are among those that are allowed.
fn is_allowed(allowed: &[Pair<'_>], pair: Pair<'_>) -> bool
    ensures { result ≡ list_any (λ other. spec.is_pair (pair_of pair.entry) other) (map (λ p. pair_of p) allowed.now) }
{
    for other in allowed {
        if pair.role == other.role && pair.table == other.table {
            return true;
        }
    }
    false
}

// True where a gain of a role and a table opens something.
fn is_opened(gains: bool, pair: Pair<'_>, allowed: &[Pair<'_>]) -> bool
    ensures { result ≡ (gains && not (list_any (λ other. spec.is_pair (pair_of pair.entry) other) (map (λ p. pair_of p) allowed.now))) }
{
    gains && !is_allowed(allowed, pair)
}

// Adds a role and a table.
fn add_pair<A: Heap>(
    alloc: A,
    report: &mut Report<A>,
    pair: Pair<'_>,
    old: &Sight<'_, A>,
    new: &Sight<'_, A>,
    allowed: &[Pair<'_>],
) -> Result<(), AllocError>
    requires { report.old.rows.unfinished ≡ [] }
    ensures { (before after : Database) → IsSight before pair.entry.role.now pair.entry.table.now old.now → IsSight after pair.entry.role.now pair.entry.table.now new.now → OnOk result (IsReported before after (map (λ p. pair_of p) allowed.now) (pair_of pair.entry ∷ []) report.old report.new) }
{
    let gains = push_change(alloc, &mut report.rows, pair, old, new)?;
    if is_opened(gains, pair, allowed) {
        report.opens = true;
    }
    Ok(())
}

// Adds a role with each table.
fn add_role<A: Heap>(
    alloc: A,
    report: &mut Report<A>,
    stores: Stores<'_, A>,
    role: &str,
    tables: &[&str],
    allowed: &[Pair<'_>],
) -> Result<(), AllocError>
    requires { report.old.rows.unfinished ≡ [] }
    ensures { OnOk result (IsReported stores.entry.old.now stores.entry.new.now (map (λ p. pair_of p) allowed.now) (map (λ table. (role.now, table.now)) tables.now) report.old report.new) }
{
    let old_marks = stores.old.catalog().reached(role);
    let new_marks = stores.new.catalog().reached(role);
    for table in tables {
        let old = sight_of(alloc, stores.old, &old_marks, role, table)?;
        let new = sight_of(alloc, stores.new, &new_marks, role, table)?;
        add_pair(alloc, report, Pair { role, table }, &old, &new, allowed)?;
    }
    Ok(())
}

// Adds each role with each table.
fn add_roles<A: Heap>(
    alloc: A,
    report: &mut Report<A>,
    stores: Stores<'_, A>,
    roles: &[&str],
    tables: &[&str],
    allowed: &[Pair<'_>],
) -> Result<(), AllocError>
    requires { report.old.rows.unfinished ≡ [] }
    ensures { OnOk result (IsReported stores.entry.old.now stores.entry.new.now (map (λ p. pair_of p) allowed.now) (flat_map (λ role. map (λ table. (role.now, table.now)) tables.now) roles.now) report.old report.new) }
{
    for role in roles {
        add_role(alloc, report, stores, role, tables, allowed)?;
    }
    Ok(())
}

/// What roles gain and lose of tables by a change of the schema: what they read in a new store and not in an old one, and the other
/// way round. A row is the same in both where it has the same number. What is allowed opens nothing. It fails where memory runs out.
pub fn changes<A: Heap>(
    alloc: A,
    old: &Store<A>,
    new: &Store<A>,
    allowed: &[Pair<'_>],
) -> Result<Changes<A>, AllocError>
    ensures rows { IfOk result (λ c. reply_of c.reply ≡ reply.Rows spec.change_headings (spec.change_rows old.now new.now)) }
    ensures opens { IfOk result (λ c. c.opens ≡ spec.opens old.now new.now (map (λ p. (p.role.now, p.table.now)) allowed.now)) }
{
    let roles = roles_of_either(alloc, old.catalog(), new.catalog())?;
    let tables = tables_of_either(alloc, old.catalog(), new.catalog())?;
    let mut report = Report {
        rows: AnswerRows::new(alloc),
        opens: false,
    };
    let stores = Stores { old, new };
    add_roles(
        alloc,
        &mut report,
        stores,
        roles.as_slice(),
        tables.as_slice(),
        allowed,
    )?;
    let headings = headings(
        alloc,
        &[
            "role",
            "table",
            "rows_gained",
            "rows_lost",
            "columns_gained",
            "columns_lost",
        ],
    )?;
    let Report { rows, opens } = report;
    Ok(Changes {
        reply: Reply::Rows { headings, rows },
        opens,
    })
}
