//! Schema statements of sessions, and what other sessions see of them.

use crate::scripts::run;
use std::test::Fail;

// Conditions that can fault, and one that cannot: the catalogue is changed by this one alone.
const FAULTY: &str = "\
login boss => session 0
login guest => session 1
login alice => session 2
ask 1 SELECT id FROM deal => id
change 0 CREATE POLICY p ON deal USING (1 / parts = 1) => refused 42P17
ask 1 SELECT id FROM deal => id
ask 2 SELECT id FROM deal => id / 1 / 2 / 5
change 0 DROP POLICY p ON deal => refused 42704
change 0 CREATE POLICY p ON deal USING (-parts = 0) => refused 42P17
change 0 CREATE POLICY p ON deal USING (CAST(owner AS bigint) = 1) => refused 42P17
change 0 CREATE POLICY p ON deal USING (parts = 4) => ok
ask 1 SELECT id FROM deal => id / 1
ask 2 SELECT id FROM deal => id / 1 / 2 / 5
change 0 CREATE POLICY p ON deal USING (1 / parts = 1) => refused 42710
change 0 DROP POLICY p ON deal => ok
ask 1 SELECT id FROM deal => id
";

// A prepared text is asked each time by the policies and over the rows of that time.
pub const EXECUTED: &str = "\
login alice => session 0
login boss => session 1
prepare 0 mine SELECT id, owner FROM deal => ok
execute 0 mine => id,owner / 1,alice / 2,alice / 5,alice
change 1 DROP POLICY own ON deal => ok
execute 0 mine => id,owner
change 1 CREATE POLICY first_ones ON deal TO alice USING (id < 4) => ok
execute 0 mine => id,owner / 1,alice / 2,alice / 3,bob
load deal more => ok
execute 0 mine => id,owner / 1,alice / 2,alice / 3,bob
change 1 ALTER TABLE deal DISABLE ROW LEVEL SECURITY => ok
execute 0 mine => id,owner / 1,alice / 2,alice / 3,bob / 4,bob / 5,alice / 6,alice / 7,bob
change 1 CREATE INDEX i ON deal (id) => ok
execute 0 mine => id,owner / 1,alice / 2,alice / 3,bob / 4,bob / 5,alice / 6,alice / 7,bob
";

// Another session takes the grant away, and gives a part of it back.
pub const REVOKED: &str = "\
login alice => session 0
login boss => session 1
prepare 0 mine SELECT id FROM deal => ok
execute 0 mine => id / 1 / 2 / 5
change 1 REVOKE SELECT ON deal FROM sales => ok
execute 0 mine => denied 42501 column id of table deal
change 1 GRANT SELECT (id) ON deal TO alice => ok
execute 0 mine => id / 1 / 2 / 5
ask 0 SELECT owner FROM deal => denied 42501 column owner of table deal
";

// A cursor is fetched to its end after the grant was taken away; a new one is denied.
pub const FETCHED: &str = "\
login alice => session 0
login boss => session 1
declare 0 c SELECT id FROM deal => ok
fetch 0 c 2 => id / 1 / 2
change 1 REVOKE SELECT ON deal FROM sales => ok
ask 0 SELECT id FROM deal => denied 42501 column id of table deal
fetch 0 c 5 => id / 5
fetch 0 c 5 => id
declare 0 d SELECT id FROM deal => denied 42501 column id of table deal
fetch 0 d 1 => refused 34000
";

// A new table belongs to the current role of the session that makes it.
const OWNED: &str = "\
login alice => session 0
login root => session 1
login boss => session 2
ask 2 SELECT id FROM note => refused 42P01 at 15
setrole 1 boss => ok
change 1 CREATE TABLE note (id bigint) => ok
ask 2 SELECT id FROM note => id
ask 0 SELECT id FROM note => denied 42501 column id of table note
change 0 GRANT SELECT ON note TO alice => refused 42501
change 2 GRANT SELECT ON note TO alice => ok
ask 0 SELECT id FROM note => id
load note notes => ok
ask 0 SELECT id FROM note => id / 1 / 2
change 0 CREATE TABLE mine (id bigint NOT NULL) => ok
ask 0 SELECT id FROM mine => id
ask 2 SELECT id FROM mine => denied 42501 column id of table mine
";

#[test]
fn policies_that_can_fault_are_refused(rt: HostRuntime) -> Result<(), Fail> {
    Ok(run(&rt, FAULTY)?)
}

#[test]
fn a_revoke_reaches_prepared_texts_and_no_cursor(rt: HostRuntime) -> Result<(), Fail> {
    run(&rt, EXECUTED)?;
    run(&rt, REVOKED)?;
    Ok(run(&rt, FETCHED)?)
}

#[test]
fn statements_are_of_the_current_role(rt: HostRuntime) -> Result<(), Fail> {
    Ok(run(&rt, OWNED)?)
}
