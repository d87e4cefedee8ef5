//! The lines of scripts: what is no event, and the spaces of texts.

use crate::scripts::run;
use std::test::Fail;

// Lines that are no event, and at the end some that are: the others changed nothing.
const NO_EVENTS: &str = "\
login => no event
 => no event
login  => no event
login a b => no event
login  alice => no event
 login alice => no event
login alice  => no event
LOGIN alice => no event
Login alice => no event
logins alice => no event
logout => no event
logout 0  => no event
logout x => no event
logout 00 => no event
setrole 0 => no event
setrole alice => no event
setrole 0 alice bob => no event
resetrole => no event
resetrole 0 alice => no event
ask => no event
ask 0 => no event
ask x SELECT => no event
ask -0 SELECT id FROM deal => no event
ask +0 SELECT id FROM deal => no event
ask 01 SELECT id FROM deal => no event
ask 18446744073709551616 SELECT id FROM deal => no event
describe => no event
describe 0 => no event
describe SELECT id FROM deal => no event
prepare 0 => no event
prepare 0 p => no event
prepare 0  SELECT => no event
execute 0 => no event
execute 0 p q => no event
declare 0 c => no event
declare x c SELECT => no event
fetch 0 c => no event
fetch 0 c -1 => no event
fetch 0 c 01 => no event
fetch 0 c 1 2 => no event
fetch 0 c 18446744073709551616 => no event
close 0 => no event
close 0 c d => no event
change 0 => no event
change CREATE ROLE dan => no event
load => no event
load deal => no event
load deal deals more => no event
load  deals => no event
SELECT id FROM deal => no event
login root => session 0
ask 0 SELECT id FROM deal => id / 1 / 2 / 3 / 4 / 5
login dan => refused 42704
";

// Texts with spaces before, in and after them.
const SPACES: &str = "\
login alice => session 0
ask 0   SELECT id  FROM deal  WHERE => refused 42601 at 29
ask 0 SELECT id FROM deal WHERE  => refused 42601 at 26
ask 0  => refused 42601 at 0
ask 0   => refused 42601 at 1
ask 0 SELECT 'a  b' AS t FROM region WHERE id = 1 => t / a  b
ask 0   SELECT nosuch FROM deal => refused 42703 at 9
prepare 0 p   SELECT nosuch FROM deal => ok
execute 0 p => refused 42703 at 9
prepare 0 q SELECT id FROM deal  => ok
execute 0 q => id / 1 / 2 / 5
declare 0 c  SELECT nosuch FROM deal => refused 42703 at 8
change 0  CREATE ROLE => refused 42601 at 12
prepare 0 é SELECT 'é' AS t FROM region WHERE id = 1 => ok
execute 0 é => t / é
ask 0 SELECT 'é' AS t, nosuch FROM region => refused 42703 at 18
";

#[test]
fn lines_that_are_no_event(rt: HostRuntime) -> Result<(), Fail> {
    Ok(run(&rt, NO_EVENTS)?)
}

#[test]
fn texts_keep_their_spaces(rt: HostRuntime) -> Result<(), Fail> {
    Ok(run(&rt, SPACES)?)
}
