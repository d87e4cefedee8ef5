//! Texts of tables of a million fields, and of a cell of 16 megabytes.

use crate::broken_tables::{PAIRS, outcome};
use crate::rows::{expanded, fields, number};
use std::alloc::AllocError;
use std::process::Abort;
use std::test::Fail;

// How many times the parts in braces stand, the text of a table, and the line that is written; ` | ` between them, and `~` for an LF.
const REFUSED: &str = "\
999999 | id,name~1{,1}~ | data t row 1~
999999 | id,name~1,a~{,}~ | data t row 2~
999999 | id,name~1,a~\"{\",\"}\"~ | data t row 2~
999999 | id{,id}~1,a~ | data t header~
1048576 | id,name~{1111111111111111},a~ | data t row 1 column id~
1048576 | id,name~1,a~\"{1111111111111111} | data t row 2~
1000000 | {\r~} | data t header~
1000000 | id,name~{\r~}1~ | data t row 1~
";

// Texts that are also the reply over the rows that they are.
const WHOLE: &str = "\
1048576 | id,name~1,{0123456789abcdef}~2,b~
1048576 | id,name~1,\"{\"\"\"\"\"\"\"\"\"\"\"\"\"\"\"\"}\"~2,b~
65536 | id,name~1,\"{0123456789abcd\r~}\"~2,b~
";

fn is_refused(rt: &(impl Abort + AllocGlobal), row: &str) -> Result<(), AllocError> {
    let ([many, text, want], _) = fields(row);
    let text = expanded(rt.alloc(), text, number(rt, many))?;
    let want = expanded(rt.alloc(), want, 0)?;
    let out = outcome(rt.alloc(), PAIRS, text.as_bytes());
    assert_eq!(rt; out.inner.as_slice(), want.as_bytes(), "{row}");
    Ok(())
}

fn is_answered(rt: &(impl Abort + AllocGlobal), row: &str) -> Result<(), AllocError> {
    let ([many, text, _], _) = fields(row);
    let text = expanded(rt.alloc(), text, number(rt, many))?;
    let out = outcome(rt.alloc(), PAIRS, text.as_bytes());
    let is_same = out.inner.as_slice() == text.as_bytes();
    assert!(rt; is_same, "{row}");
    Ok(())
}

#[test]
fn records_of_a_million_fields_and_great_cells(rt: HostRuntime) -> Result<(), Fail> {
    assert!(rt; !REFUSED.is_empty() && !WHOLE.is_empty());
    for row in REFUSED.lines() {
        is_refused(&rt, row)?;
    }
    for row in WHOLE.lines() {
        is_answered(&rt, row)?;
    }
    Ok(())
}
