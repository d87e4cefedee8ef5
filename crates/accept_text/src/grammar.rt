//! Query texts, and the trees that they are or the offsets at which they are refused.

use crate::trees::is_read;
use std::process::Abort;
use syntax::parse_query;

// A text, and its tree or the offset at which it is refused.
type Row = (&'static str, Result<&'static str, u32>);

// Levels of operators, the tightest first, and the side from which each binds.
static LEVELS: [Row; 20] = [
    ("SELECT a + b * c FROM t", Ok("SELECT (a + (b * c)) FROM t")),
    ("SELECT a * b + c FROM t", Ok("SELECT ((a * b) + c) FROM t")),
    ("SELECT a - b - c FROM t", Ok("SELECT ((a - b) - c) FROM t")),
    (
        "SELECT a - b + c - d FROM t",
        Ok("SELECT (((a - b) + c) - d) FROM t"),
    ),
    (
        "SELECT a / b * c % d FROM t",
        Ok("SELECT (((a / b) * c) % d) FROM t"),
    ),
    (
        "SELECT a - (b - c) FROM t",
        Ok("SELECT (a - (b - c)) FROM t"),
    ),
    ("SELECT -a * b FROM t", Ok("SELECT ((- a) * b) FROM t")),
    ("SELECT a * -b FROM t", Ok("SELECT (a * (- b)) FROM t")),
    ("SELECT a - -b FROM t", Ok("SELECT (a - (- b)) FROM t")),
    ("SELECT - - a FROM t", Ok("SELECT (- (- a)) FROM t")),
    ("SELECT a = b + c FROM t", Ok("SELECT (a = (b + c)) FROM t")),
    (
        "SELECT a + b < c * d FROM t",
        Ok("SELECT ((a + b) < (c * d)) FROM t"),
    ),
    (
        "SELECT a <> b, a <= b, a >= b, a > b FROM t",
        Ok("SELECT (a <> b), (a <= b), (a >= b), (a > b) FROM t"),
    ),
    ("SELECT a = b = c FROM t", Err(13)),
    ("SELECT a < b > c FROM t", Err(13)),
    (
        "SELECT (a = b) = c FROM t",
        Ok("SELECT ((a = b) = c) FROM t"),
    ),
    (
        "SELECT a = (b = c) FROM t",
        Ok("SELECT (a = (b = c)) FROM t"),
    ),
    ("SELECT a < > b FROM t", Err(11)),
    ("SELECT a =< b FROM t", Err(10)),
    ("SELECT a + * b FROM t", Err(11)),
];

// NOT, AND and OR: a run is one list, and a member in parentheses of the same kind is merged into it.
static CONNECTIVES: [Row; 19] = [
    ("SELECT NOT a = b FROM t", Ok("SELECT (NOT (a = b)) FROM t")),
    ("SELECT NOT NOT a FROM t", Ok("SELECT (NOT (NOT a)) FROM t")),
    (
        "SELECT NOT a AND b FROM t",
        Ok("SELECT AND[(NOT a), b] FROM t"),
    ),
    (
        "SELECT NOT (a AND b) FROM t",
        Ok("SELECT (NOT AND[a, b]) FROM t"),
    ),
    ("SELECT a = NOT b FROM t", Err(11)),
    (
        "SELECT a = (NOT b) FROM t",
        Ok("SELECT (a = (NOT b)) FROM t"),
    ),
    (
        "SELECT a OR b AND c FROM t",
        Ok("SELECT OR[a, AND[b, c]] FROM t"),
    ),
    (
        "SELECT a AND b OR c FROM t",
        Ok("SELECT OR[AND[a, b], c] FROM t"),
    ),
    (
        "SELECT (a OR b) AND c FROM t",
        Ok("SELECT AND[OR[a, b], c] FROM t"),
    ),
    (
        "SELECT a AND b AND c FROM t",
        Ok("SELECT AND[a, b, c] FROM t"),
    ),
    (
        "SELECT (a AND b) AND (c AND d) FROM t",
        Ok("SELECT AND[a, b, c, d] FROM t"),
    ),
    (
        "SELECT a AND (b AND (c AND d)) FROM t",
        Ok("SELECT AND[a, b, c, d] FROM t"),
    ),
    (
        "SELECT a OR (b OR c) OR (d AND e) FROM t",
        Ok("SELECT OR[a, b, c, AND[d, e]] FROM t"),
    ),
    (
        "SELECT (a AND b) OR (a AND c) FROM t",
        Ok("SELECT OR[AND[a, b], AND[a, c]] FROM t"),
    ),
    ("SELECT ((a OR b)) FROM t", Ok("SELECT OR[a, b] FROM t")),
    (
        "SELECT a AND (b OR (c OR d)) FROM t",
        Ok("SELECT AND[a, OR[b, c, d]] FROM t"),
    ),
    (
        "SELECT a AND NOT (b AND c) FROM t",
        Ok("SELECT AND[a, (NOT AND[b, c])] FROM t"),
    ),
    ("SELECT a AND OR b FROM t", Err(13)),
    ("SELECT a FROM t WHERE a = 1 AND", Err(31)),
];

// IS NULL, BETWEEN and IN; the AND of a BETWEEN is no connective.
static CONDITIONS: [Row; 33] = [
    ("SELECT a IS NULL FROM t", Ok("SELECT (a IS NULL) FROM t")),
    (
        "SELECT a IS NOT NULL FROM t",
        Ok("SELECT (a IS NOT NULL) FROM t"),
    ),
    (
        "SELECT NOT a IS NULL FROM t",
        Ok("SELECT (NOT (a IS NULL)) FROM t"),
    ),
    (
        "SELECT a = b IS NULL FROM t",
        Ok("SELECT ((a = b) IS NULL) FROM t"),
    ),
    (
        "SELECT a + b IS NOT NULL OR c FROM t",
        Ok("SELECT OR[((a + b) IS NOT NULL), c] FROM t"),
    ),
    ("SELECT a IS NULL IS NULL FROM t", Err(17)),
    ("SELECT a IS NULL = b FROM t", Err(17)),
    ("SELECT a IS b FROM t", Err(12)),
    ("SELECT a IS NOT TRUE FROM t", Err(16)),
    (
        "SELECT a BETWEEN 1 AND 2 FROM t",
        Ok("SELECT (a BETWEEN 1 AND 2) FROM t"),
    ),
    (
        "SELECT a BETWEEN 1 AND 2 AND b FROM t",
        Ok("SELECT AND[(a BETWEEN 1 AND 2), b] FROM t"),
    ),
    (
        "SELECT a AND b BETWEEN 1 AND 2 FROM t",
        Ok("SELECT AND[a, (b BETWEEN 1 AND 2)] FROM t"),
    ),
    (
        "SELECT a NOT BETWEEN b - 1 AND b + 1 OR c FROM t",
        Ok("SELECT OR[(a NOT BETWEEN (b - 1) AND (b + 1)), c] FROM t"),
    ),
    (
        "SELECT NOT a BETWEEN 1 AND 2 FROM t",
        Ok("SELECT (NOT (a BETWEEN 1 AND 2)) FROM t"),
    ),
    (
        "SELECT a < b BETWEEN 1 AND 2 FROM t",
        Ok("SELECT (a < (b BETWEEN 1 AND 2)) FROM t"),
    ),
    (
        "SELECT a BETWEEN 1 AND 2 = b FROM t",
        Ok("SELECT ((a BETWEEN 1 AND 2) = b) FROM t"),
    ),
    (
        "SELECT a BETWEEN (b = c) AND (d AND e) FROM t",
        Ok("SELECT (a BETWEEN (b = c) AND AND[d, e]) FROM t"),
    ),
    ("SELECT a BETWEEN 1 OR 2 FROM t", Err(19)),
    ("SELECT a BETWEEN 1 AND 2 BETWEEN 3 AND 4 FROM t", Err(25)),
    ("SELECT a BETWEEN NOT b AND c FROM t", Err(17)),
    ("SELECT a IN (1) FROM t", Ok("SELECT (a IN [1]) FROM t")),
    (
        "SELECT a IN (-5, - 6, 'x', NULL, TRUE, false) FROM t",
        Ok("SELECT (a IN [-5, -6, 'x', NULL, TRUE, FALSE]) FROM t"),
    ),
    (
        "SELECT a NOT IN (1, 2) AND b FROM t",
        Ok("SELECT AND[(a NOT IN [1, 2]), b] FROM t"),
    ),
    ("SELECT a IN (b) FROM t", Err(13)),
    ("SELECT a IN (- b) FROM t", Err(15)),
    ("SELECT a IN (1, - - 5) FROM t", Err(18)),
    ("SELECT a IN (-", Err(14)),
    ("SELECT a IN () FROM t", Err(13)),
    ("SELECT a IN (1 2) FROM t", Err(15)),
    ("SELECT a IN (1 + 2) FROM t", Err(15)),
    ("SELECT a IN (1, 2) IN (3) FROM t", Err(19)),
    ("SELECT a NOT b FROM t", Err(13)),
    ("SELECT a NOT NULL FROM t", Err(13)),
];

// CASE, CAST and the aggregates.
static CALLS: [Row; 25] = [
    (
        "SELECT CASE WHEN a THEN b END FROM t",
        Ok("SELECT CASE[a -> b] FROM t"),
    ),
    (
        "SELECT CASE WHEN a = 1 THEN b WHEN c THEN d ELSE e + 1 END FROM t",
        Ok("SELECT CASE[(a = 1) -> b, c -> d; (e + 1)] FROM t"),
    ),
    (
        "SELECT CASE WHEN CASE WHEN a THEN b END THEN c END * 2 FROM t",
        Ok("SELECT (CASE[CASE[a -> b] -> c] * 2) FROM t"),
    ),
    ("SELECT CASE a WHEN 1 THEN 2 END FROM t", Err(12)),
    (
        "SELECT CASE WHEN a THEN b ELSE c WHEN d THEN e END FROM t",
        Err(33),
    ),
    ("SELECT CASE END FROM t", Err(12)),
    ("SELECT CASE ELSE a END FROM t", Err(12)),
    ("SELECT CASE WHEN a THEN b FROM t", Err(26)),
    (
        "SELECT CAST(a + 1 AS text) FROM t",
        Ok("SELECT CAST((a + 1) AS text) FROM t"),
    ),
    (
        "SELECT CAST('5' AS bigint) * 2 FROM t",
        Ok("SELECT (CAST('5' AS bigint) * 2) FROM t"),
    ),
    ("SELECT CAST(a AS boolean) FROM t", Err(17)),
    ("SELECT CAST(a) FROM t", Err(13)),
    ("SELECT CAST a FROM t", Err(12)),
    (
        "SELECT count(*), count(a), sum(a + 1), min(b), max(t.c) FROM t",
        Ok("SELECT count(*), count(a), sum((a + 1)), min(b), max(t.c) FROM t"),
    ),
    (
        "SELECT COUNT ( * ) * 2 FROM t",
        Ok("SELECT (count(*) * 2) FROM t"),
    ),
    (
        "SELECT sum(count(*)) FROM t",
        Ok("SELECT sum(count(*)) FROM t"),
    ),
    ("SELECT sum(*) FROM t", Err(11)),
    ("SELECT count() FROM t", Err(13)),
    ("SELECT count(*, a) FROM t", Err(14)),
    ("SELECT sum(a, b) FROM t", Err(12)),
    ("SELECT f(1) FROM t", Err(8)),
    ("SELECT avg(a) FROM t", Err(10)),
    ("SELECT t.sum(a) FROM t", Err(12)),
    ("SELECT bigint(a) FROM t", Err(13)),
    (
        "SELECT count, sum.min, t.max FROM t",
        Ok("SELECT count, sum.min, t.max FROM t"),
    ),
];

// Names: folded, and reserved words are none.
static NAMES: [Row; 13] = [
    (
        "sElEcT Deal . ID, _a1 FROM DEAL",
        Ok("SELECT deal.id, _a1 FROM deal"),
    ),
    (
        "SELECT role, text, policy, boolean, superuser FROM table",
        Ok("SELECT role, text, policy, boolean, superuser FROM table"),
    ),
    (
        "SELECT count.sum FROM min count",
        Ok("SELECT count.sum FROM min AS count"),
    ),
    (
        "SELECT public, create FROM grant",
        Ok("SELECT public, create FROM grant"),
    ),
    ("SELECT left FROM t", Err(7)),
    ("SELECT t.all FROM t", Err(9)),
    ("SELECT using FROM t", Err(7)),
    ("SELECT a FROM order", Err(14)),
    ("SELECT a FROM t AS with", Err(19)),
    ("SELECT a FROM t natural", Err(16)),
    ("SELECT a AS end FROM t", Err(12)),
    ("SELECT a.b.c FROM t", Err(10)),
    ("SELECT \"a\" FROM t", Err(7)),
];

// Items and FROM.
static TABLES: [Row; 26] = [
    ("SELECT * FROM t", Ok("SELECT * FROM t")),
    ("SELECT t.* FROM t", Err(9)),
    ("SELECT *, a FROM t", Err(8)),
    ("SELECT a, * FROM t", Err(10)),
    ("SELECT a, FROM t", Err(10)),
    ("SELECT FROM t", Err(7)),
    ("SELECT DISTINCT a FROM t", Err(7)),
    (
        "SELECT a AS b, c + 1 AS d FROM t",
        Ok("SELECT a AS b, (c + 1) AS d FROM t"),
    ),
    ("SELECT a b FROM t", Err(9)),
    ("SELECT a AS 1 FROM t", Err(12)),
    (
        "SELECT a FROM t AS u, v w",
        Ok("SELECT a FROM t AS u, v AS w"),
    ),
    ("SELECT a FROM t u v", Err(18)),
    ("SELECT a FROM t AS", Err(18)),
    (
        "SELECT a FROM t JOIN u ON t.a = u.b",
        Ok("SELECT a FROM t JOIN u ON (t.a = u.b)"),
    ),
    (
        "SELECT a FROM t INNER JOIN u AS x ON a CROSS JOIN v y, w",
        Ok("SELECT a FROM t JOIN u AS x ON a CROSS JOIN v AS y, w"),
    ),
    (
        "SELECT a FROM t, u JOIN v ON b AND c JOIN w ON d WHERE e",
        Ok("SELECT a FROM t, u JOIN v ON AND[b, c] JOIN w ON d WHERE e"),
    ),
    ("SELECT a FROM t u RIGHT JOIN v ON a = b", Err(18)),
    ("SELECT a FROM t JOIN u", Err(22)),
    ("SELECT a FROM t JOIN u USING (a)", Err(23)),
    ("SELECT a FROM t CROSS JOIN u ON a", Err(29)),
    ("SELECT a FROM t CROSS u", Err(22)),
    ("SELECT a FROM t INNER u", Err(22)),
    ("SELECT a FROM (t)", Err(14)),
    ("SELECT a FROM t.u", Err(15)),
    ("SELECT a FROM t, WHERE b", Err(17)),
    ("SELECT 1", Err(8)),
];

// Left joins, which come last in FROM.
static LEFT_JOINS: [Row; 22] = [
    (
        "SELECT a FROM t LEFT JOIN u ON a = b",
        Ok("SELECT a FROM t LEFT JOIN u ON (a = b)"),
    ),
    (
        "SELECT a FROM t left outer join u AS x ON a",
        Ok("SELECT a FROM t LEFT JOIN u AS x ON a"),
    ),
    (
        "SELECT a FROM t x, u JOIN v ON b LEFT JOIN w y ON c OR d LEFT OUTER JOIN w ON e WHERE f LIMIT 1",
        Ok(
            "SELECT a FROM t AS x, u JOIN v ON b LEFT JOIN w AS y ON OR[c, d] LEFT JOIN w ON e WHERE f LIMIT 1",
        ),
    ),
    (
        "SELECT a FROM t LEFT JOIN u ON b AND (c AND d) GROUP BY a",
        Ok("SELECT a FROM t LEFT JOIN u ON AND[b, c, d] GROUP BY a"),
    ),
    (
        "SELECT a FROM t CROSS JOIN u LEFT JOIN v ON TRUE",
        Ok("SELECT a FROM t CROSS JOIN u LEFT JOIN v ON TRUE"),
    ),
    ("SELECT a FROM t LEFT JOIN u ON a, v", Err(32)),
    ("SELECT a FROM t LEFT JOIN u ON a JOIN v ON b", Err(33)),
    (
        "SELECT a FROM t LEFT JOIN u ON a INNER JOIN v ON b",
        Err(33),
    ),
    ("SELECT a FROM t LEFT JOIN u ON a CROSS JOIN v", Err(33)),
    (
        "SELECT a FROM t LEFT JOIN u ON a RIGHT JOIN v ON b",
        Err(33),
    ),
    ("SELECT a FROM t LEFT JOIN u ON a FULL JOIN v ON b", Err(33)),
    ("SELECT a FROM t LEFT JOIN u", Err(27)),
    ("SELECT a FROM t LEFT JOIN u USING (a)", Err(28)),
    ("SELECT a FROM t LEFT JOIN (u) ON a", Err(26)),
    ("SELECT a FROM t LEFT u ON a", Err(21)),
    ("SELECT a FROM t LEFT OUTER u ON a", Err(27)),
    ("SELECT a FROM t OUTER JOIN u ON a", Err(16)),
    ("SELECT a FROM t LEFT INNER JOIN u ON a", Err(21)),
    ("SELECT a FROM t JOIN u LEFT JOIN v ON a ON b", Err(23)),
    ("SELECT a FROM LEFT JOIN u ON a", Err(14)),
    ("SELECT left FROM t", Err(7)),
    ("SELECT a AS outer FROM t", Err(12)),
];

// The clauses after FROM, each once and in order.
static CLAUSES: [Row; 23] = [
    (
        "SELECT a FROM t WHERE b GROUP BY a, t.c HAVING count(*) > 1 ORDER BY a DESC, 2, d ASC LIMIT 10",
        Ok(
            "SELECT a FROM t WHERE b GROUP BY a, t.c HAVING (count(*) > 1) ORDER BY a DESC, #2 ASC, d ASC LIMIT 10",
        ),
    ),
    (
        "SELECT a FROM t HAVING b LIMIT 007",
        Ok("SELECT a FROM t HAVING b LIMIT 7"),
    ),
    (
        "SELECT a FROM t LIMIT 9223372036854775807",
        Ok("SELECT a FROM t LIMIT 9223372036854775807"),
    ),
    (
        "SELECT a FROM t ORDER BY count, 9223372036854775807 desc",
        Ok("SELECT a FROM t ORDER BY count ASC, #9223372036854775807 DESC"),
    ),
    ("SELECT id FROM deal WHERE", Err(25)),
    ("SELECT a FROM t LIMIT 1 ORDER BY a", Err(24)),
    ("SELECT a FROM t GROUP BY a WHERE b", Err(27)),
    ("SELECT a FROM t HAVING a GROUP BY a", Err(25)),
    ("SELECT a FROM t ORDER BY a HAVING b", Err(27)),
    ("SELECT a FROM t WHERE a WHERE b", Err(24)),
    ("SELECT a FROM t GROUP BY 1", Err(25)),
    ("SELECT a FROM t GROUP BY a + 1", Err(27)),
    ("SELECT a FROM t GROUP a", Err(22)),
    ("SELECT a FROM t ORDER BY a.b", Err(26)),
    ("SELECT a FROM t ORDER BY -1", Err(25)),
    ("SELECT a FROM t ORDER BY a + 1", Err(27)),
    ("SELECT a FROM t ORDER BY a DESC ASC", Err(32)),
    ("SELECT a FROM t ORDER BY 9223372036854775808", Err(25)),
    ("SELECT a FROM t LIMIT -1", Err(22)),
    ("SELECT a FROM t LIMIT a", Err(22)),
    ("SELECT a FROM t LIMIT 9223372036854775808", Err(22)),
    ("SELECT a FROM t LIMIT 1 OFFSET 2", Err(24)),
    ("SELECT a FROM t UNION SELECT a FROM t", Err(16)),
];

// Literals, and bytes that are no token.
static TOKENS: [Row; 29] = [
    (
        "SELECT NULL, TRUE, FALSE, CURRENT_USER, 007 FROM t",
        Ok("SELECT NULL, TRUE, FALSE, CURRENT_USER, 7 FROM t"),
    ),
    ("SELECT -5 * -3 FROM t", Ok("SELECT (-5 * -3) FROM t")),
    ("SELECT - 5 FROM t", Ok("SELECT -5 FROM t")),
    ("SELECT - - 5 FROM t", Ok("SELECT (- -5) FROM t")),
    ("SELECT -(5) FROM t", Ok("SELECT (- 5) FROM t")),
    ("SELECT (-5) FROM t", Ok("SELECT -5 FROM t")),
    ("SELECT a -5 FROM t", Ok("SELECT (a - 5) FROM t")),
    ("SELECT a - -5 FROM t", Ok("SELECT (a - -5) FROM t")),
    (
        "SELECT 2 * - 3 + 4 FROM t",
        Ok("SELECT ((2 * -3) + 4) FROM t"),
    ),
    (
        "SELECT 9223372036854775807 FROM t",
        Ok("SELECT 9223372036854775807 FROM t"),
    ),
    ("SELECT 9223372036854775808 FROM t", Err(7)),
    (
        "SELECT -9223372036854775808, - 9223372036854775808 FROM t",
        Ok("SELECT -9223372036854775808, -9223372036854775808 FROM t"),
    ),
    (
        "SELECT a IN (-9223372036854775808) FROM t",
        Ok("SELECT (a IN [-9223372036854775808]) FROM t"),
    ),
    ("SELECT a IN (9223372036854775808) FROM t", Err(13)),
    ("SELECT a - 9223372036854775808 FROM t", Err(11)),
    ("SELECT -(9223372036854775808) FROM t", Err(9)),
    ("SELECT -9223372036854775809 FROM t", Err(8)),
    (
        "SELECT 'it''s', '', '\\n', '\\NN' FROM t",
        Ok("SELECT 'it's', '', '\\n', '\\NN' FROM t"),
    ),
    ("SELECT '\\N' FROM t", Err(7)),
    ("SELECT a = '\\N' FROM t", Err(11)),
    ("SELECT 'open FROM t", Err(7)),
    ("SELECT 1 -- x", Err(9)),
    ("SELECT a--b FROM t", Err(8)),
    ("SELECT 1 /* x */ FROM t", Err(9)),
    ("SELECT 1a FROM t", Err(7)),
    ("SELECT 1.5 FROM t", Err(8)),
    ("SELECT a != b FROM t", Err(9)),
    ("SELECT aé FROM t", Err(8)),
    ("SELECT 12é FROM t", Err(9)),
];

// Ends and parentheses.
static ENDS: [Row; 9] = [
    ("", Err(0)),
    ("SELECT", Err(6)),
    (" DELETE FROM t", Err(1)),
    ("SELECT 1 FROM t;", Err(15)),
    ("SELECT (a FROM t", Err(10)),
    ("SELECT (a, b) FROM t", Err(9)),
    ("SELECT a) FROM t", Err(8)),
    ("SELECT () FROM t", Err(8)),
    ("SELECT a FROM t SELECT", Err(16)),
];

// The first token that cannot continue a query.
static LONGEST_FRONTS: [Row; 15] = [
    ("", Err(0)),
    ("SELECT", Err(6)),
    ("SELECT FROM t", Err(7)),
    ("SELECT a b FROM t", Err(9)),
    ("SELECT a, FROM t", Err(10)),
    ("SELECT a.b.c FROM t", Err(10)),
    ("SELECT a FROM t, 1", Err(17)),
    ("SELECT a FROM t WHERE a = 1 = 2", Err(28)),
    ("SELECT *, a FROM t", Err(8)),
    ("SELECT a FROM t;", Err(15)),
    ("SELECT a -- x", Err(9)),
    ("SELECT a /* x", Err(9)),
    ("SELECT 'a FROM t", Err(7)),
    ("SELECT a\u{e9} FROM t", Err(8)),
    ("DELETE FROM t", Err(0)),
];

// The same with offsets: of names, of operations and of the first token of a condition.
static PLACED: [Row; 16] = [
    (
        "SELECT a FROM t LEFT JOIN u ON b = c LEFT OUTER JOIN v AS w ON d",
        Ok(
            "SELECT a@7 FROM t@14 LEFT JOIN u@26 ON@31 (b@31 =@33 c@35) LEFT JOIN v@53 AS w ON@63 d@63",
        ),
    ),
    (
        "SELECT a + b * c FROM t",
        Ok("SELECT (a@7 +@9 (b@11 *@13 c@15)) FROM t@22"),
    ),
    (
        "SELECT (a AND b) AND c FROM t",
        Ok("SELECT AND@17[a@8, b@14, c@21] FROM t@28"),
    ),
    (
        "SELECT a AND (b AND c) AND d FROM t",
        Ok("SELECT AND@9[a@7, b@14, c@20, d@27] FROM t@34"),
    ),
    (
        "SELECT (a OR b) OR (c OR d) FROM t",
        Ok("SELECT OR@16[a@8, b@13, c@20, d@25] FROM t@33"),
    ),
    (
        "SELECT a AND b OR c AND d FROM t",
        Ok("SELECT OR@15[AND@9[a@7, b@13], AND@20[c@18, d@24]] FROM t@31"),
    ),
    (
        "SELECT - -a, NOT NOT b FROM t",
        Ok("SELECT (-@7 (-@9 a@10)), (NOT@13 (NOT@17 b@21)) FROM t@28"),
    ),
    (
        "SELECT a BETWEEN b AND c AND d NOT BETWEEN 1 AND 2 FROM t",
        Ok("SELECT AND@25[(a@7 BETWEEN@9 b@17 AND c@23), (d@29 NOT BETWEEN@31 1 AND 2)] FROM t@56"),
    ),
    (
        "SELECT a IN (1, 2), b NOT IN (3), c IS NULL, d IS NOT NULL FROM t",
        Ok(
            "SELECT (a@7 IN@9 [1, 2]), (b@20 NOT IN@22 [3]), (c@34 IS NULL@36), (d@45 IS NOT NULL@47) FROM t@64",
        ),
    ),
    (
        "SELECT CAST(a AS text), CASE WHEN b THEN 1 END, count(*), sum (c <> 1) FROM t",
        Ok(
            "SELECT CAST@7(a@12 AS text), CASE@24[b@34 -> 1], count@48(*), sum@58((c@63 <>@65 1)) FROM t@76",
        ),
    ),
    (
        "SELECT * FROM t JOIN u x ON (u.a) CROSS JOIN v, w",
        Ok("SELECT *@7 FROM t@14 JOIN u@21 AS x ON@28 u.a@29 CROSS JOIN v@45, w@48"),
    ),
    (
        "SELECT t . a FROM t WHERE - b = 1 GROUP BY t.c, d HAVING NOT k ORDER BY a DESC, 2 LIMIT 3",
        Ok(
            "SELECT t.a@7 FROM t@18 WHERE@26 ((-@26 b@28) =@30 1) GROUP BY t.c@43, d@48 HAVING@57 (NOT@57 k@61) ORDER BY a@72 DESC, #2@80 ASC LIMIT 3",
        ),
    ),
    (
        "SELECT a FROM t WHERE -1 < (b - c - d)",
        Ok("SELECT a@7 FROM t@14 WHERE@22 (-1 <@25 ((b@28 -@30 c@32) -@34 d@36))"),
    ),
    ("\t SELECT\r\n a FROM t", Ok("SELECT a@11 FROM t@18")),
    ("SELECT 'é€', a FROM t", Ok("SELECT 'é€', a@16 FROM t@23")),
    (
        "sElEcT Deal . ID, Role FROM Table",
        Ok("SELECT deal.id@7, role@18 FROM table@28"),
    ),
];

fn read_as(rt: &(impl Abort + AllocGlobal), name: &str, placed: bool, rows: &[Row]) {
    for (text, want) in rows {
        is_read(
            rt,
            placed,
            parse_query(rt.alloc(), text),
            *want,
            (name, text),
        );
    }
}

fn levels() -> &'static [Row] {
    &LEVELS
}

fn connectives() -> &'static [Row] {
    &CONNECTIVES
}

fn conditions() -> &'static [Row] {
    &CONDITIONS
}

fn calls() -> &'static [Row] {
    &CALLS
}

fn names() -> &'static [Row] {
    &NAMES
}

fn tables() -> &'static [Row] {
    &TABLES
}

fn left_joins() -> &'static [Row] {
    &LEFT_JOINS
}

fn clauses() -> &'static [Row] {
    &CLAUSES
}

fn tokens() -> &'static [Row] {
    &TOKENS
}

fn ends() -> &'static [Row] {
    &ENDS
}

fn longest_fronts() -> &'static [Row] {
    &LONGEST_FRONTS
}

fn placed() -> &'static [Row] {
    &PLACED
}

#[test]
fn queries_by_the_grammar(rt: HostRuntime) {
    read_as(&rt, "levels", false, levels());
    read_as(&rt, "connectives", false, connectives());
    read_as(&rt, "conditions", false, conditions());
    read_as(&rt, "calls", false, calls());
    read_as(&rt, "names", false, names());
    read_as(&rt, "tables", false, tables());
    read_as(&rt, "left_joins", false, left_joins());
    read_as(&rt, "clauses", false, clauses());
    read_as(&rt, "tokens", false, tokens());
    read_as(&rt, "ends", false, ends());
    read_as(
        &rt,
        "refused_at_the_token_after_the_longest_front",
        false,
        longest_fronts(),
    );
}

#[test]
fn offsets_of_operations_and_names(rt: HostRuntime) {
    read_as(&rt, "offsets_of_operations_and_names", true, placed());
}
