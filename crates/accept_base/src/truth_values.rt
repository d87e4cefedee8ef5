//! Truth values of all rows, against those of one row at a time.

use crate::cases::{CASES, Case, truth};
use crate::conditions::{below_x, column, expression, joined};
use crate::numbers::{LENGTHS, columns, csv, first, second};
use expr::{Copied, logical_not};
use lane_filters::truths_of;
use std::alloc::{AllocError, AllocGlobal, Global};
use std::process::Abort;
use std::test::Fail;
use tables::Table;

fn table(rt: &(impl Abort + AllocGlobal), rows: usize) -> Result<Table<Global>, AllocError> {
    let text = csv(rt.alloc(), rows)?;
    match Table::load(rt.alloc(), text.as_bytes(), columns(rt.alloc())?) {
        Ok(table) => Ok(table),
        Err(_) => panic!(rt; "no table"),
    }
}

// The condition is true on the rows where it is to be.
fn is_true_where(
    rt: &(impl Abort + AllocGlobal),
    table: &Table<Global>,
    condition: Copied<Global>,
    case: Case,
    want: bool,
) -> Result<(), AllocError> {
    let Some(truths) = truths_of(rt.alloc(), table, "r", &*condition?)? else {
        panic!(rt; "{case:?} does not go by lanes");
    };
    assert_eq!(rt;
        truths.len() as u64,
        table.rows(),
        "{case:?}: a truth value for each row"
    );
    for row in 0..truths.len() {
        let wanted = truth(case, first(row), second(row)) == Some(want);
        let found = truths.is_true(row);
        assert_eq!(rt; found, wanted, "{case:?}, {want}: row {row}");
    }
    Ok(())
}

// The condition is true where it is to be, and its NOT where it is to be false.
fn agrees(
    rt: &(impl Abort + AllocGlobal),
    table: &Table<Global>,
    case: Case,
) -> Result<(), AllocError> {
    let alloc = rt.alloc();
    is_true_where(rt, table, expression(alloc, case), case, true)?;
    let negated = logical_not(alloc, 0, expression(alloc, case));
    is_true_where(rt, table, negated, case, false)
}

fn stays(
    rt: &(impl Abort + AllocGlobal),
    table: &Table<Global>,
    condition: Copied<Global>,
    name: &str,
) -> Result<(), AllocError> {
    let truths = truths_of(rt.alloc(), table, "r", &*condition?)?;
    assert!(rt; truths.is_none(), "{name}");
    Ok(())
}

#[test]
fn conditions_have_the_truth_values_of_their_rows(rt: HostRuntime) -> Result<(), Fail> {
    for rows in &LENGTHS {
        let table = table(&rt, *rows)?;
        for case in &CASES {
            agrees(&rt, &table, *case)?;
        }
    }
    Ok(())
}

#[test]
fn other_conditions_stay_row_by_row(rt: HostRuntime) -> Result<(), Fail> {
    let table = table(&rt, 7)?;
    let alloc = rt.alloc();
    let equal = expression(alloc, Case::NoMember);
    stays(&rt, &table, below_x(alloc), "an order of texts")?;
    stays(
        &rt,
        &table,
        joined(alloc, true, below_x(alloc), equal),
        "one member of two",
    )?;
    stays(&rt, &table, column(alloc, 0), "a column")?;
    Ok(())
}
