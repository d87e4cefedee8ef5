//! Each refusal of each event.

use crate::scripts::{run, run_over};
use fixtures::FLAGS;
use std::test::Fail;

// Each event of a session that is not open, also with a role that is none, and a text that is none.
pub const NOT_OPEN: &str = "\
logout 0 => refused 08003
setrole 0 alice => refused 08003
setrole 0 zed => refused 08003
resetrole 0 => refused 08003
ask 0 SELECT id FROM deal => refused 08003
ask 0 SELECT => refused 08003
describe 0 SELECT => refused 08003
prepare 0 p SELECT id FROM deal => refused 08003
prepare 0 p SELECT => refused 08003
execute 0 p => refused 08003
declare 0 c SELECT id FROM deal => refused 08003
declare 0 c SELECT => refused 08003
fetch 0 c 1 => refused 08003
close 0 c => refused 08003
change 0 CREATE ROLE dan => refused 08003
change 0 CREATE => refused 08003
login alice => session 0
ask 1 SELECT id FROM deal => refused 08003
ask 18446744073709551615 SELECT id FROM deal => refused 08003
ask 0 SELECT id FROM deal => id / 1 / 2 / 5
";

// Privileges that are missing, roles and tables that are not there.
const DENIED: &str = "\
login alice => session 0
setrole 0 boss => refused 42501
setrole 0 root => refused 42501
setrole 0 bob => refused 42501
setrole 0 nosuch => refused 42704
change 0 DROP POLICY own ON deal => refused 42501
change 0 CREATE POLICY p ON deal USING (TRUE) => refused 42501
change 0 GRANT SELECT ON deal TO lone => refused 42501
change 0 REVOKE SELECT ON deal FROM sales => refused 42501
change 0 ALTER TABLE deal DISABLE ROW LEVEL SECURITY => refused 42501
change 0 CREATE INDEX i ON deal (id) => refused 42501
change 0 CREATE ROLE dan => refused 42501
change 0 GRANT boss TO alice => refused 42501
change 0 DROP POLICY own ON nosuch => refused 42P01
change 0 CREATE TABLE deal (id bigint) => refused 42P07
setrole 0 sales => ok
change 0 DROP POLICY own ON deal => refused 42501
login guest => session 1
ask 1 SELECT owner FROM deal => denied 42501 column owner of table deal
login lone => session 2
ask 2 SELECT count(*) FROM deal => denied 42501 table deal
ask 2 SELECT id FROM nosuch => refused 42P01 at 15
";

// Names of prepared texts and cursors that are in use, and that are not there. They are taken byte by byte.
pub const NAMES: &str = "\
login alice => session 0
execute 0 p => refused 26000
prepare 0 p SELECT id FROM deal => ok
prepare 0 p SELECT owner FROM deal => refused 42P05
prepare 0 p SELECT => refused 42P05
execute 0 p => id / 1 / 2 / 5
execute 0 P => refused 26000
prepare 0 P SELECT owner FROM deal => ok
execute 0 P => owner / alice / alice / alice
fetch 0 c 1 => refused 34000
close 0 c => refused 34000
declare 0 c SELECT id FROM deal => ok
declare 0 c SELECT owner FROM deal => refused 42P03
declare 0 c SELECT => refused 42P03
close 0 C => refused 34000
declare 0 C SELECT owner FROM deal => ok
declare 0 p SELECT amount FROM deal => ok
fetch 0 c 9 => id / 1 / 2 / 5
fetch 0 C 9 => owner / alice / alice / alice
fetch 0 p 1 => amount / 50
";

// Texts that are no query or no statement, with the offset of the refused token, and queries that are refused by their names
// and types, or fault.
const OFFSETS: &str = "\
login boss => session 0
ask 0 SELECT => refused 42601 at 6
ask 0 CREATE ROLE dan => refused 42601 at 0
ask 0 SELECT id FROM deal WHERE => refused 42601 at 25
ask 0 SELECT id FROM deal; => refused 42601 at 19
prepare 0 p SELECT id FROM deal WHERE => refused 42601 at 25
prepare 0 p CREATE ROLE dan => refused 42601 at 0
execute 0 p => refused 26000
declare 0 c SELECT FROM deal => refused 42601 at 7
fetch 0 c 1 => refused 34000
change 0 CREATE ROLE => refused 42601 at 11
change 0 SELECT id FROM deal => refused 42601 at 0
change 0 DROP POLICY own ON deal; => refused 42601 at 23
change 0 GRANT SELECT ON deal => refused 42601 at 20
ask 0 SELECT 1 FROM deal WHERE id = 'x' => refused 42804 at 28
ask 0 SELECT nosuch FROM deal => refused 42703 at 7
ask 0 SELECT id FROM deal, region => refused 42702 at 7
ask 0 SELECT a.id FROM region a, region b, region c, region d, region e, region f, region g, region h, region i, region j, region k, region l, region m => refused 54000
prepare 0 p SELECT a.id FROM region a, region b, region c, region d, region e, region f, region g, region h, region i, region j, region k, region l, region m => refused 54000
execute 0 p => refused 26000
ask 0 SELECT amount / parts FROM deal => fault 22012 at 14
ask 0 SELECT id FROM deal => id / 1 / 2 / 3 / 4 / 5
";

// Left joins are answered in sessions as elsewhere, and their ONs may not fault; names and privileges come before that.
const LEFT_JOINS: &str = "\
login alice => session 0
ask 0 SELECT d.id, r.name FROM deal d LEFT JOIN region r ON d.region = r.id => id,name / 1,north / 2,south / 5,\\N
prepare 0 p SELECT d.id FROM deal d LEFT JOIN region r ON d.region = r.id WHERE r.name IS NULL => ok
execute 0 p => id / 5
declare 0 c SELECT r.id, d.id AS deal FROM region r LEFT OUTER JOIN deal d ON r.id = d.region => ok
fetch 0 c 2 => id,deal / 1,1 / 2,2
fetch 0 c 2 => id,deal / \\N,\\N
ask 0 SELECT d.id FROM deal d LEFT JOIN region r ON d.amount/d.parts = r.id => refused 0A000 at 54
login lone => session 1
ask 1 SELECT d.id FROM deal d LEFT JOIN region r ON d.region = r.id => denied 42501 column id of table deal
ask 1 SELECT r.id FROM region r LEFT JOIN deal d ON TRUE => denied 42501 table deal
ask 1 SELECT d.id FROM deal d LEFT JOIN region r ON d.amount/d.parts = r.id => refused 0A000 at 54
";

// Statements of a superuser that are refused by what they name, by their condition, or since it is there already.
const STATEMENTS: &str = "\
login root => session 0
change 0 CREATE ROLE alice => refused 42710
change 0 CREATE ROLE public => refused 42710
change 0 GRANT sales TO nosuch => refused 42704
change 0 GRANT alice TO sales => refused 0LP01
change 0 GRANT sales TO sales => refused 0LP01
change 0 REVOKE nosuch FROM alice => refused 42704
change 0 CREATE TABLE t (id bigint, id text) => refused 42701
change 0 CREATE TABLE region (id bigint) => refused 42P07
change 0 ALTER TABLE nosuch OWNER TO boss => refused 42P01
change 0 ALTER TABLE deal OWNER TO nosuch => refused 42704
change 0 CREATE INDEX i ON deal (nosuch) => refused 42703
change 0 CREATE INDEX region ON deal (id) => refused 42P07
change 0 CREATE INDEX i ON deal (id) => ok
change 0 CREATE INDEX i ON region (id) => refused 42P07
change 0 CREATE INDEX j ON deal (id) => refused 42710
change 0 GRANT SELECT (nosuch) ON deal TO alice => refused 42703
change 0 GRANT SELECT ON deal TO nosuch => refused 42704
change 0 REVOKE SELECT ON nosuch FROM alice => refused 42P01
change 0 CREATE POLICY own ON deal USING (TRUE) => refused 42710
change 0 CREATE POLICY p ON deal TO nosuch USING (TRUE) => refused 42704
change 0 CREATE POLICY p ON deal USING (nosuch = 1) => refused 42703
change 0 CREATE POLICY p ON deal USING (d.id = 1) => refused 42P01
change 0 CREATE POLICY p ON deal USING (count(*) = 1) => refused 42803
change 0 CREATE POLICY p ON deal USING (id = 'x') => refused 42804
change 0 CREATE POLICY p ON deal USING (id) => refused 42804
change 0 CREATE POLICY p ON deal USING (id + 1 = 2) => refused 42P17
change 0 DROP POLICY p ON deal => refused 42704
ask 0 SELECT id FROM i => refused 42P01 at 15
setrole 0 alice => ok
ask 0 SELECT id FROM deal => id / 1 / 2 / 5
";

// Loads into no table, and of texts with an error: nothing is added. No session has to be open.
const LOADS: &str = "\
load nosuch deals => refused 42P01
load nosuch wrong_cell => refused 42P01
load DEAL deals => refused 42P01
load deal regions => data deal header
load deal nothing => data deal header
load deal wrong_cell => data deal row 2 column region
load deal few_fields => data deal row 1
load deal cut_row => data deal row 2
login audit => session 0
ask 0 SELECT id FROM deal => id / 1 / 2 / 3 / 4 / 5
load deal more => ok
ask 0 SELECT id FROM deal => id / 1 / 2 / 3 / 4 / 5 / 6 / 7
load region regions => ok
ask 0 SELECT id FROM region => id / 1 / 1 / 2 / 2 / \\N / \\N
";

// Nulls and truth values of columns that have none such.
const FLAG_LOADS: &str = "\
load flag no_note => data flag row 2 column note null
load flag no_truth => data flag row 1 column open
load deal deals => refused 42P01
login alice => session 0
ask 0 SELECT id FROM flag => id
load flag open => ok
ask 0 SELECT id, note FROM flag => id,note / 1,a
";

#[test]
fn sessions_that_are_not_open(rt: HostRuntime) -> Result<(), Fail> {
    Ok(run(&rt, NOT_OPEN)?)
}

#[test]
fn privileges_that_are_missing(rt: HostRuntime) -> Result<(), Fail> {
    Ok(run(&rt, DENIED)?)
}

#[test]
fn names_that_are_in_use_or_unknown(rt: HostRuntime) -> Result<(), Fail> {
    Ok(run(&rt, NAMES)?)
}

#[test]
fn texts_are_refused_at_their_offset(rt: HostRuntime) -> Result<(), Fail> {
    run(&rt, OFFSETS)?;
    Ok(run(&rt, LEFT_JOINS)?)
}

#[test]
fn statements_that_are_refused(rt: HostRuntime) -> Result<(), Fail> {
    Ok(run(&rt, STATEMENTS)?)
}

#[test]
fn refused_loads_add_nothing(rt: HostRuntime) -> Result<(), Fail> {
    run(&rt, LOADS)?;
    Ok(run_over(&rt, FLAGS, FLAG_LOADS)?)
}
