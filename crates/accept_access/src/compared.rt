//! The numbers of a matrix, compared with queries.

use engine::Store;
use fixtures::served;
use replies::Reply;
use std::alloc::{AllocError, Global};
use std::borrow::CowStr;
use std::process::Abort;
use std::str;
use value::Val;

fn text_of(value: Val<'_, Global>, alloc: Global) -> Result<String, AllocError> {
    match value {
        Val::Text(CowStr::Borrowed(text)) => String::from_str(alloc, text),
        _ => String::from_str(alloc, "no text"),
    }
}

fn number_of(value: &Val<'_, Global>) -> i64 {
    match value {
        Val::Int(n) => *n,
        _ => -1,
    }
}

// The number that a role counts in a table, if it is not denied.
fn counted(
    alloc: Global,
    store: &Store<Global>,
    role: &str,
    table: &str,
) -> Result<Option<i64>, AllocError> {
    let mut query = String::from_str(alloc, "SELECT count(*) FROM ")?;
    query.push_str(table)?;
    let (status, out) = served(alloc, store, role, query.as_str());
    let text = str::from_utf8(out.inner.as_slice()).unwrap_or("");
    let number = text
        .strip_prefix("count\n")
        .unwrap_or("")
        .strip_suffix('\n')
        .unwrap_or("");
    if status == 4 {
        return Ok(None);
    }
    Ok(Some(number.parse::<i64>().unwrap_or(-1)))
}

/// Each number of rows of the matrix is the one that the role counts, and that of all rows the one that root counts; a role is denied
/// exactly where the matrix has no column.
pub fn is_counted(
    rt: &impl Abort,
    alloc: Global,
    store: &Store<Global>,
    reply: &Reply<Global>,
) -> Result<(), AllocError> {
    let Reply::Rows { rows, .. } = reply else {
        panic!(rt; "no rows");
    };
    for i in 0..rows.len() {
        let row = rows.row(i);
        let role = text_of(row.get(0), alloc)?;
        let table = text_of(row.get(1), alloc)?;
        let columns = text_of(row.get(2), alloc)?;
        let (seen, all) = (number_of(&row.get(3)), number_of(&row.get(4)));
        let count = counted(alloc, store, role.as_str(), table.as_str())?;
        assert_eq!(rt;
            count.is_none(),
            columns.as_str() == "none",
            "{role} {table}"
        );
        assert_eq!(rt; count.unwrap_or(0), seen, "{role} {table}");
        assert_eq!(rt;
            counted(alloc, store, "root", table.as_str())?,
            Some(all),
            "{table}"
        );
    }
    Ok(())
}
