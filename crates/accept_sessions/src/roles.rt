//! The roles of sessions: who logs in, what a session may become, and what it then sees.

use crate::scripts::run;
use std::test::Fail;

// A member becomes a role that it belongs to and no other, and takes its own back.
pub const SET: &str = "\
login alice => session 0
setrole 0 sales => ok
ask 0 SELECT id FROM deal => id
setrole 0 boss => refused 42501
ask 0 SELECT id FROM deal => id
ask 0 SELECT CURRENT_USER AS me FROM region WHERE id = 1 => me / sales
setrole 0 alice => ok
ask 0 SELECT id FROM deal => id / 1 / 2 / 5
setrole 0 sales => ok
resetrole 0 => ok
ask 0 SELECT id FROM deal => id / 1 / 2 / 5
resetrole 0 => ok
setrole 0 zed => refused 42704
setrole 0 SALES => refused 42704
setrole 0 public => refused 42704
ask 0 SELECT CURRENT_USER AS me FROM region WHERE id = 1 => me / alice
";

// A superuser becomes any role; a member of one does not, once it has become it.
const LOGIN_ROLES: &str = "\
login root => session 0
setrole 0 alice => ok
ask 0 SELECT id FROM deal => id / 1 / 2 / 5
change 0 CREATE ROLE dan => refused 42501
setrole 0 boss => ok
ask 0 SELECT id FROM deal => id / 1 / 2 / 3 / 4 / 5
setrole 0 lone => ok
ask 0 SELECT id FROM deal => denied 42501 column id of table deal
resetrole 0 => ok
change 0 CREATE ROLE dan => ok
login dan => session 1
change 0 GRANT root TO alice => ok
login alice => session 2
change 2 CREATE ROLE eve => refused 42501
setrole 2 root => ok
change 2 CREATE ROLE eve => ok
setrole 2 lone => refused 42501
ask 2 SELECT CURRENT_USER AS me FROM region WHERE id = 1 => me / root
";

// A membership by two steps, which is then taken away: the session stays what it is until it sets a role.
const MEMBERSHIPS: &str = "\
login root => session 0
login alice => session 1
setrole 1 audit => refused 42501
change 0 GRANT audit TO sales => ok
ask 1 SELECT id FROM deal => id / 1 / 2 / 5
setrole 1 audit => ok
ask 1 SELECT id FROM deal => id / 1 / 2 / 3 / 4 / 5
change 0 REVOKE sales FROM alice => ok
ask 1 SELECT id FROM deal => id / 1 / 2 / 3 / 4 / 5
setrole 1 audit => refused 42501
ask 1 SELECT id FROM deal => id / 1 / 2 / 3 / 4 / 5
setrole 1 alice => ok
ask 1 SELECT id FROM deal => denied 42501 column id of table deal
";

// Three sessions, two of them of one role.
pub const APART: &str = "\
login alice => session 0
login bob => session 1
login alice => session 2
setrole 0 sales => ok
ask 0 SELECT id FROM deal => id
ask 1 SELECT id FROM deal => id / 3 / 4
ask 2 SELECT id FROM deal => id / 1 / 2 / 5
prepare 0 p SELECT id FROM deal => ok
execute 1 p => refused 26000
execute 2 p => refused 26000
prepare 1 p SELECT owner FROM deal => ok
execute 1 p => owner / bob / bob
execute 0 p => id
declare 1 c SELECT id FROM deal => ok
fetch 2 c 1 => refused 34000
close 0 c => refused 34000
logout 1 => ok
execute 0 p => id
ask 2 SELECT id FROM deal => id / 1 / 2 / 5
";

// Numbers are not used again, also not that of a login that was refused.
pub const NUMBERS: &str = "\
login alice => session 0
prepare 0 p SELECT id FROM deal => ok
declare 0 c SELECT id FROM deal => ok
logout 0 => ok
logout 0 => refused 08003
ask 0 SELECT id FROM deal => refused 08003
login zed => refused 42704
login alice => session 1
execute 1 p => refused 26000
fetch 1 c 1 => refused 34000
login ALICE => refused 42704
login public => refused 42704
login é => refused 42704
login bob => session 2
logout 1 => ok
ask 1 SELECT id FROM deal => refused 08003
ask 2 SELECT id FROM deal => id / 3 / 4
login alice => session 3
";

#[test]
fn login_role_decides_what_a_session_becomes(rt: HostRuntime) -> Result<(), Fail> {
    run(&rt, SET)?;
    run(&rt, LOGIN_ROLES)?;
    Ok(run(&rt, MEMBERSHIPS)?)
}

#[test]
fn sessions_have_roles_texts_and_cursors_of_their_own(rt: HostRuntime) -> Result<(), Fail> {
    Ok(run(&rt, APART)?)
}

#[test]
fn numbers_of_sessions_are_not_used_again(rt: HostRuntime) -> Result<(), Fail> {
    Ok(run(&rt, NUMBERS)?)
}
