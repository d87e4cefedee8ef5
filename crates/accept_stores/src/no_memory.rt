//! Calls that take no memory: the allocator counts no request in them.

use crate::stores::made;
use access::{RequiredPrivilege, denied, guard, is_granted};
use engine::ask;
use eval::{eval, eval_movable, is_true_on};
use expr::is_movable;
use fixtures::deals;
use memory::Heap;
use metered::Metered;
use replies::reply_status;
use resolve::bind;
use std::borrow::CowStr;
use std::process::Abort;
use store::Store;
use syntax::{parse_query, parse_statement};
use tables::Table;
use tuples::{Combo, Guard, Slot, TableRow, Work, shows};
use value::{Truth, Val, add, and3, cmp_values, div, eq3, lt3, mul, neg, not3, or3, rem, sub};

// The comparisons, the logic and the arithmetic of two numbers and two texts.
fn compares<A: Heap>(_alloc: A) -> bool {
    let one: Val<'_, A> = Val::Int(1);
    let two: Val<'_, A> = Val::Int(2);
    let text: Val<'_, A> = Val::Text(CowStr::Borrowed("alice"));
    let other: Val<'_, A> = Val::Text(CowStr::Borrowed("bob"));
    let ordered = cmp_values(&one, &two).is_lt() && cmp_values(&other, &text).is_gt();
    let compared = and3(lt3(&one, &two), not3(eq3(&text, &other)));
    let exact = add(&one, &two).is_ok()
        && sub(&one, &two).is_ok()
        && mul(&one, &two).is_ok()
        && div(&one, &two).is_ok()
        && rem(&one, &two).is_ok()
        && neg(&one).is_ok();
    ordered && exact && or3(compared, Truth::Unknown) == Truth::True
}

// What the store lends: its tables by name and by number, their columns, rows and cells, and the memberships of roles.
fn looks_up<A: Heap>(store: &Store<A>) -> bool {
    let Some(table) = store.contents("deal") else {
        return false;
    };
    let cell = table.rows() > 0
        && !table.columns().is_empty()
        && eq3(&table.cell(0, 0), &Val::Int(2)) == Truth::True;
    cell && table.columns().len() == 2 && store.table_count() == 1 && store.table_name(0) == "deal"
}

// What the catalogue tells: its roles and their attributes, its tables, and the number of its changes.
fn looks_up_catalog<A: Heap>(store: &Store<A>) -> bool {
    let catalog = store.catalog();
    let told = catalog.is_role("alice")
        && !catalog.is_superuser("alice")
        && !catalog.bypasses_rls("alice")
        && !catalog.is_member("alice", "boss");
    told && catalog.roles() > 1
        && catalog.tables() == 1
        && catalog.change_number() > 0
        && catalog.table("deal").is_some()
        && matches!(catalog.find_table("deal"), Some((0, _)))
}

// The slots of a combination of one row, and the steps that a counter counts.
fn counts<A: Heap>(combination: &Combo<A>) -> bool {
    let mut work = Work::new();
    work.tick();
    matches!(combination.row(0), Slot::Absent)
        && matches!(combination.row(1), Slot::Row(5))
        && matches!(combination.row(2), Slot::Absent)
        && work.count() == 1
}

// SELECT on a table is granted to alice, and first denied to lone.
fn grants<A: Heap>(store: &Store<A>) -> bool {
    let Some(table) = store.catalog().table("deal") else {
        return false;
    };
    let whole = RequiredPrivilege {
        table,
        column: None,
    };
    is_granted(store.catalog(), "alice", whole)
        && denied(store.catalog(), "alice", &[whole]).is_none()
        && denied(store.catalog(), "lone", &[whole]).is_some()
}

// A guard shows the first row to alice; its condition is true there, and has a value.
fn guards<A: Heap>(alloc: A, guard: &Guard<A>, table: &Table<A>) -> bool {
    if table.rows() == 0 {
        return false;
    }
    let row = TableRow::new(table, 0);
    let evaluated = match guard {
        Guard::Expr(predicate) => {
            let condition = predicate.expression();
            is_movable(condition)
                && is_true_on(alloc, condition, &row, "alice")
                && !matches!(eval_movable(alloc, condition, &row, "alice"), Val::Null)
        }
        Guard::All | Guard::None => false,
    };
    evaluated && shows(alloc, guard, "alice", &row) && !shows(alloc, guard, "lone", &row)
}

#[test]
fn values_are_compared_without_memory(rt: HostRuntime) {
    let heap = Metered::counting(rt.alloc());
    assert!(rt; compares(&heap));
    assert_eq!(rt; heap.requests(0), 0u64);
}

#[test]
fn stores_are_looked_up_without_memory(rt: HostRuntime) {
    let heap = Metered::counting(rt.alloc());
    let store = made(&rt, deals(&heap));
    let before = heap.requests(0);
    assert!(rt; looks_up(&store));
    assert!(rt; looks_up_catalog(&store));
    assert!(rt; grants(&store));
    assert_eq!(rt; heap.requests(0), before);
}

// A combination of row 5 of the second entry.
fn counts_work(rt: &(impl Abort + AllocGlobal)) {
    let heap = Metered::counting(rt.alloc());
    let mut work = Work::new();
    let Ok(combination) = Combo::read(&heap, 1, 5, &mut work) else {
        panic!(rt; "no combination");
    };
    let before = heap.requests(0);
    assert!(rt; counts(&combination));
    assert_eq!(rt; heap.requests(0), before);
}

#[test]
fn work_is_counted_without_memory(rt: HostRuntime) {
    counts_work(&rt);
}

// A guard of the deals for alice, and what is done with it.
fn guards_deals(rt: &(impl Abort + AllocGlobal)) {
    let heap = Metered::counting(rt.alloc());
    let store = made(rt, deals(&heap));
    let (Some(table), Some(rows)) = (store.catalog().table("deal"), store.contents("deal")) else {
        panic!(rt; "no table deal");
    };
    let Ok(guard) = guard(&heap, store.catalog(), "alice", table) else {
        panic!(rt; "no guard");
    };
    let before = heap.requests(0);
    assert!(rt; guards(&heap, &guard, rows));
    assert_eq!(rt; heap.requests(0), before);
}

#[test]
fn guards_show_rows_without_memory(rt: HostRuntime) {
    guards_deals(&rt);
}

// The first item of a query with arithmetic and a cast of a text, on the first row.
fn evaluates_item(rt: &(impl Abort + AllocGlobal)) {
    let heap = Metered::counting(rt.alloc());
    let store = made(rt, deals(&heap));
    let Ok(query) = parse_query(&heap, "SELECT - id * 3 + CAST('7' AS bigint) FROM deal") else {
        panic!(rt; "no query");
    };
    let Ok(bound) = bind(&heap, store.catalog(), &query) else {
        panic!(rt; "not bound");
    };
    let (Some(item), Some(rows)) = (bound.query.items.get(0), store.contents("deal")) else {
        panic!(rt; "no item");
    };
    assert!(rt; rows.rows() > 0);
    let row = TableRow::new(rows, 0);
    let before = heap.requests(0);
    assert!(rt; !is_movable(&item.value));
    let value = eval(&heap, &item.value, &row, "alice");
    assert!(rt; matches!(value, Ok(Val::Int(1))));
    assert_eq!(rt; heap.requests(0), before);
}

#[test]
fn expressions_without_a_cast_to_text_are_evaluated_without_memory(rt: HostRuntime) {
    evaluates_item(&rt);
}

// The status of alice's rows.
fn tells_status(rt: &(impl Abort + AllocGlobal)) {
    let heap = Metered::counting(rt.alloc());
    let store = made(rt, deals(&heap));
    let reply = ask(&heap, &store, "alice", "SELECT id FROM deal");
    let before = heap.requests(0);
    assert_eq!(rt; reply_status(&reply), 0u8);
    assert_eq!(rt; heap.requests(0), before);
}

#[test]
fn statuses_are_told_without_memory(rt: HostRuntime) {
    tells_status(&rt);
}

// Statements that take from the catalogue, or set what is there.
static TAKING: [&str; 6] = [
    "REVOKE SELECT (id) ON deal FROM lone",
    "REVOKE SELECT ON deal FROM alice",
    "ALTER TABLE deal FORCE ROW LEVEL SECURITY",
    "ALTER TABLE deal DISABLE ROW LEVEL SECURITY",
    "DROP POLICY own ON deal",
    "REVOKE boss FROM alice",
];

fn taking() -> &'static [&'static str] {
    &TAKING
}

// Each statement in turn: it is done, and no request was counted.
fn changes(rt: &(impl Abort + AllocGlobal)) {
    let heap = Metered::counting(rt.alloc());
    let mut store = made(rt, deals(&heap));
    for text in taking() {
        let Ok(statement) = parse_statement(&heap, text) else {
            panic!(rt; "{text}");
        };
        let before = heap.requests(0);
        let done = store.change("root", &statement);
        assert!(rt; done.is_ok(), "{text}");
        assert_eq!(rt; heap.requests(0), before, "{text}");
    }
}

#[test]
fn statements_that_take_away_need_no_memory(rt: HostRuntime) {
    changes(&rt);
}
