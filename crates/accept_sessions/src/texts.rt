//! Prepared texts and cursors.

use crate::scripts::run;
use std::test::Fail;

// A cursor has the rows that were seen when it was declared, whatever comes then.
pub const KEPT: &str = "\
login alice => session 0
login boss => session 1
declare 0 c SELECT id FROM deal => ok
fetch 0 c 1 => id / 1
load deal more => ok
ask 0 SELECT id FROM deal => id / 1 / 2 / 5 / 6
setrole 0 sales => ok
fetch 0 c 1 => id / 2
change 1 DROP POLICY own ON deal => ok
ask 0 SELECT id FROM deal => id
fetch 0 c 9 => id / 5
fetch 0 c 1 => id
";

// A denied, refused or faulted declare makes no cursor, and its name stays free.
const NONE_MADE: &str = "\
login lone => session 0
login alice => session 1
declare 0 c SELECT id FROM deal => denied 42501 column id of table deal
fetch 0 c 1 => refused 34000
declare 0 c SELECT count(*) FROM deal => denied 42501 table deal
close 0 c => refused 34000
declare 1 c SELECT => refused 42601 at 6
fetch 1 c 1 => refused 34000
declare 1 c SELECT nosuch FROM deal => refused 42703 at 7
fetch 1 c 1 => refused 34000
declare 1 c SELECT amount / parts AS q FROM deal => fault 22012 at 14
fetch 1 c 1 => refused 34000
declare 1 c SELECT id FROM deal => ok
fetch 1 c 9 => id / 1 / 2 / 5
";

// Fetches of nothing, of more than there is, and of a name that is declared again; a cursor of no row.
pub const FETCHES: &str = "\
login alice => session 0
declare 0 c SELECT id FROM deal => ok
fetch 0 c 0 => id
fetch 0 c 1 => id / 1
fetch 0 c 0 => id
fetch 0 c 18446744073709551615 => id / 2 / 5
fetch 0 c 0 => id
fetch 0 c 1 => id
close 0 c => ok
fetch 0 c 1 => refused 34000
close 0 c => refused 34000
declare 0 c SELECT owner, amount FROM deal ORDER BY amount DESC => ok
declare 0 d SELECT id FROM deal => ok
fetch 0 c 2 => owner,amount / alice,100 / alice,100
fetch 0 d 2 => id / 1 / 2
fetch 0 c 2 => owner,amount / alice,50
declare 0 e SELECT id, region FROM deal WHERE id > 9 => ok
fetch 0 e 1 => id,region
fetch 0 d 2 => id / 5
";

// Names are resolved where a text is executed, by the role of that time.
const RESOLVED: &str = "\
login alice => session 0
login boss => session 1
prepare 0 p SELECT nosuch FROM deal => ok
execute 0 p => refused 42703 at 7
prepare 0 q SELECT id FROM note => ok
execute 0 q => refused 42P01 at 15
change 1 CREATE TABLE note (id bigint) => ok
execute 0 q => denied 42501 column id of table note
change 1 GRANT SELECT ON note TO PUBLIC => ok
execute 0 q => id
prepare 0 r SELECT amount / parts AS q FROM deal => ok
execute 0 r => fault 22012 at 14
prepare 0 s SELECT id FROM deal => ok
execute 0 s => id / 1 / 2 / 5
setrole 0 sales => ok
execute 0 s => id
resetrole 0 => ok
execute 0 s => id / 1 / 2 / 5
";

#[test]
fn cursors_keep_their_rows_and_give_them_once(rt: HostRuntime) -> Result<(), Fail> {
    run(&rt, KEPT)?;
    Ok(run(&rt, FETCHES)?)
}

#[test]
fn refused_declares_make_no_cursor(rt: HostRuntime) -> Result<(), Fail> {
    Ok(run(&rt, NONE_MADE)?)
}

#[test]
fn names_are_resolved_where_a_text_is_executed(rt: HostRuntime) -> Result<(), Fail> {
    Ok(run(&rt, RESOLVED)?)
}
