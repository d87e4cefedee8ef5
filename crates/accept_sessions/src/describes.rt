//! Descriptions of texts: the name and the type of each column, or the refusal or denial. A type `\N` is that of NULL.

use crate::scripts::run;
use std::test::Fail;

// Columns of each type, `*`, operations, casts and aggregates, over a table without rows.
const TYPES: &str = "\
login root => session 0
change 0 CREATE TABLE flag (id bigint, name text, open boolean) => ok
describe 0 SELECT open, f.id AS number, name FROM flag f => column,type / open,boolean / number,bigint / name,text
describe 0 SELECT * FROM flag => column,type / id,bigint / name,text / open,boolean
describe 0 SELECT * FROM region r LEFT JOIN flag f ON r.id = f.id => column,type / id,bigint / name,text / id,bigint / name,text / open,boolean
describe 0 SELECT 1 AS n, 'a' AS t, TRUE AS b, NULL AS x FROM flag => column,type / n,bigint / t,text / b,boolean / x,\\N
describe 0 SELECT CURRENT_USER AS me, - id AS less, id * 2 AS more FROM flag => column,type / me,text / less,bigint / more,bigint
describe 0 SELECT id = 1 AS a, id BETWEEN 1 AND 2 AS b, id IN (1, 2) AS c, name IS NULL AS d FROM flag => column,type / a,boolean / b,boolean / c,boolean / d,boolean
describe 0 SELECT NOT open AS a, open AND id = 1 AS b, open OR id = 1 AS c FROM flag => column,type / a,boolean / b,boolean / c,boolean
describe 0 SELECT CAST(id AS text) AS a, CAST(name AS bigint) AS b, CAST(NULL AS text) AS c FROM flag => column,type / a,text / b,bigint / c,text
describe 0 SELECT count(*), count(open), sum(id), min(name), max(id) FROM flag => column,type / count,bigint / count,bigint / sum,bigint / min,text / max,bigint
describe 0 SELECT sum(NULL) AS a, max(NULL) AS b FROM flag => column,type / a,bigint / b,\\N
describe 0 SELECT open, max(name) AS last FROM flag GROUP BY open HAVING count(*) > 1 ORDER BY open LIMIT 0 => column,type / open,boolean / last,text
";

// A CASE has the type of its first result that is not NULL's, ELSE's included.
const CASES: &str = "\
login alice => session 0
describe 0 SELECT CASE WHEN id = 1 THEN owner ELSE NULL END AS a FROM deal => column,type / a,text
describe 0 SELECT CASE WHEN id = 1 THEN NULL WHEN id = 2 THEN owner END AS a FROM deal => column,type / a,text
describe 0 SELECT CASE WHEN id = 1 THEN NULL WHEN id = 2 THEN NULL ELSE amount END AS a FROM deal => column,type / a,bigint
describe 0 SELECT CASE WHEN id = 1 THEN CASE WHEN id = 2 THEN NULL END ELSE id = 3 END AS a FROM deal => column,type / a,boolean
describe 0 SELECT CASE WHEN id = 1 THEN NULL END AS a FROM deal => column,type / a,\\N
describe 0 SELECT max(CASE WHEN id = 1 THEN NULL ELSE owner END) AS a FROM deal => column,type / a,text
";

// A text is described for the current role. No row is read for it, so that nothing faults.
const CURRENT_ROLE: &str = "\
login alice => session 0
login root => session 1
describe 0 SELECT id, owner FROM deal => column,type / id,bigint / owner,text
ask 0 SELECT amount / parts AS q FROM deal => fault 22012 at 14
describe 0 SELECT amount / parts AS q FROM deal => column,type / q,bigint
describe 0 SELECT owner, sum(amount) AS total, NULL AS note FROM deal GROUP BY owner => column,type / owner,text / total,bigint / note,\\N
describe 1 SELECT * FROM deal => column,type / id,bigint / owner,text / region,bigint / amount,bigint / parts,bigint
setrole 1 guest => ok
describe 1 SELECT id FROM deal => column,type / id,bigint
describe 1 SELECT * FROM deal => denied 42501 column owner of table deal
setrole 1 lone => ok
describe 1 SELECT id FROM deal => denied 42501 column id of table deal
describe 1 SELECT count(*) FROM deal => denied 42501 table deal
describe 1 SELECT name FROM region => column,type / name,text
resetrole 1 => ok
describe 1 SELECT id FROM deal => column,type / id,bigint
change 1 REVOKE SELECT ON deal FROM sales => ok
describe 0 SELECT id FROM deal => denied 42501 column id of table deal
";

// Each refusal, of the session first.
const REFUSED: &str = "\
describe 0 SELECT id FROM deal => refused 08003
describe 0 SELECT => refused 08003
login alice => session 0
describe 1 SELECT id FROM deal => refused 08003
describe 0 SELECT => refused 42601 at 6
describe 0  => refused 42601 at 0
describe 0 CREATE ROLE dan => refused 42601 at 0
describe 0 SELECT nosuch FROM deal => refused 42703 at 7
describe 0 SELECT id FROM nosuch => refused 42P01 at 15
describe 0 SELECT owner, count(*) FROM deal => refused 42803 at 7
describe 0 SELECT owner + 1 AS a FROM deal => refused 42804 at 13
describe 0 SELECT min(id = 1) FROM deal => refused 42804 at 7
describe 0 SELECT CASE WHEN id = 1 THEN NULL WHEN id = 2 THEN 1 ELSE 'x' END AS a FROM deal => refused 42804 at 7
logout 0 => ok
describe 0 SELECT id FROM deal => refused 08003
";

#[test]
fn columns_are_described(rt: HostRuntime) -> Result<(), Fail> {
    run(&rt, TYPES)?;
    run(&rt, CASES)?;
    run(&rt, CURRENT_ROLE)?;
    Ok(run(&rt, REFUSED)?)
}
