//! The tables of the runs, and the rows of the test: each has a role, a query or its name, the indexes (the number of an entry and that
//! of a column, with a dot between them), the column by which the rows are wanted in order, `-` for that of the code, or `any` where
//! they are given to a sink, the code of a plan, its combinations in their order (the numbers of the rows, from 0, of the entries in
//! the order of FROM; in braces where an index with equal values leaves their order open), and the steps that are counted.

/// The statements that make the tables.
pub const SCHEMA: &str = "CREATE ROLE alice;
CREATE TABLE a (id bigint, k bigint, t text, b boolean); CREATE TABLE c (id bigint, k bigint, t text, b boolean);
CREATE TABLE bare (id bigint, k bigint, t text, b boolean);
ALTER TABLE c ENABLE ROW LEVEL SECURITY; CREATE POLICY p ON c USING (b);";

/// The rows of the table a.
pub const A: &str = "id,k,t,b
1,1,x,t
2,\\N,y,f
3,2,\\N,\\N
4,1,x,t
5,5,z,f
";

/// The rows of the table c.
pub const C: &str = "id,k,t,b
1,1,x,t
2,2,y,\\N
3,1,z,f
4,\\N,x,t
5,7,\\N,f
";

const KEYS: &str = "SELECT a.id FROM a, c WHERE a.k = c.k";

const TEXTS: &str = "SELECT a.id FROM a, c WHERE a.t = c.t";

const TRUTHS: &str = "SELECT a.id FROM a, c WHERE a.b = c.b";

const NUMBERS: &str = "SELECT a.id FROM a, c WHERE a.id = c.id";

const BARE: &str = "SELECT a.id FROM a, bare WHERE a.k = bare.k";

const SELF: &str = "SELECT p.id FROM a p, a q WHERE p.k = q.k";

const THREE: &str =
    "SELECT a.id FROM a, c, a d WHERE a.k = c.k AND c.id = d.id AND (a.id < d.id OR a.t = c.t)";

const FIRST: &str = "SELECT a.id FROM a, c, a d WHERE a.k = c.k AND a.id = d.id";

const LEFT: &str = "SELECT a.id FROM a LEFT JOIN c ON a.k = c.k";

const MIDDLE: &str =
    "SELECT a.id FROM a, c, a d, c e WHERE a.k = c.k AND a.id = d.id AND c.id = e.id";

/// The query of that name, or the text itself.
pub fn query_text(text: &str) -> &str {
    match text {
        "KEYS" => KEYS,
        "TEXTS" => TEXTS,
        "TRUTHS" => TRUTHS,
        "NUMBERS" => NUMBERS,
        "BARE" => BARE,
        "SELF" => SELF,
        "THREE" => THREE,
        "FIRST" => FIRST,
        "MIDDLE" => MIDDLE,
        "LEFT" => LEFT,
        _ => text,
    }
}

/// The rows of the test.
///
/// A full scan takes a step for each row, the scan of an index two, the part of an index one more. A hash join takes one for each
/// row of both sides and each pair with equal keys, of two equalities where there are two; nested loops take as many by the first
/// equalities with an entry before, where these are no more than all pairs, and else one for each pair; a merge takes one for each left row, one for each right row that
/// is passed since it is less than a left one, and one for each pair with equal keys. Sorting takes one for each comparison of the
/// merge sort, which halves a list with the smaller half first. Where no combination is left, no further entry is read. Given to a
/// sink, a whole index is read as the table stands, and a merge is a hash join. Rows that nested loops or a hash join would read as
/// they stand are found by an index on a column of an equality with an entry before, where that is no more than the rows of the
/// table with one step for each combination and three for each row found, seen or not: it takes one for each combination, two for
/// each row found and one for each pair. A left join takes as many as nested loops or a hash join of the rows that the guard shows.
pub const ROWS: &str = "root | KEYS | - | - | 1 f n, 2 f n | 0.0 0.2 2.1 3.0 3.2 | 25
root | KEYS | - | - | 1 f n, 2 f h1 | 0.0 0.2 2.1 3.0 3.2 | 25
root | KEYS | - | - | 2 f n, 1 f h1 | 0.0 3.0 2.1 0.2 3.2 | 25
root | KEYS | - | - | 1 f n, 2 f m1 | 0.0 0.2 3.0 3.2 2.1 | 38
root | KEYS | 1.2 2.2 | - | 1 i2 n, 2 i2 m1 | {0.0 0.2 2.1 3.0 3.2} | 34
root | KEYS | 2.2 | - | 1 f n, 2 i2 m1 | {0.0 0.2 2.1 3.0 3.2} | 37
root | KEYS | 1.2 | - | 1 i2 n, 2 f m1 | {0.0 0.2 2.1 3.0 3.2} | 35
root | TEXTS | - | - | 1 f n, 2 f n | 0.0 0.3 1.1 3.0 3.3 4.2 | 26
root | TEXTS | - | - | 1 f n, 2 f h1 | 0.0 0.3 1.1 3.0 3.3 4.2 | 26
root | TRUTHS | - | - | 1 f n, 2 f h1 | 0.0 0.3 1.2 1.4 3.0 3.3 4.2 4.4 | 28
root | TRUTHS | - | - | 1 f n, 2 f n | 0.0 0.3 1.2 1.4 3.0 3.3 4.2 4.4 | 28
root | NUMBERS | 1.1 2.1 | - | 1 i1 n, 2 i1 m1 | 0.0 1.1 2.2 3.3 4.4 | 34
root | NUMBERS | 1.1 2.1 | - | 1 i1 n, 2 i1 h1 | 0.0 1.1 2.2 3.3 4.4 | 35
root | NUMBERS | 1.1 2.1 | - | 1 i1 n, 2 i1 n | 0.0 1.1 2.2 3.3 4.4 | 35
root | BARE | - | - | 1 f n, 2 f n |  | 5
root | BARE | - | - | 1 f n, 2 f h1 |  | 10
root | BARE | - | - | 2 f n, 1 f h1 |  | 0
root | BARE | - | - | 1 f n, 2 f m1 |  | 18
root | BARE | - | - | 2 f n, 1 f m1 |  | 0
root | SELF | - | - | 1 f n, 2 f h1 | 0.0 0.3 2.2 3.0 3.3 4.4 | 26
root | SELF | - | - | 1 f n, 2 f n | 0.0 0.3 2.2 3.0 3.3 4.4 | 26
root | THREE | - | - | 1 f n, 2 f h1, 3 f h2 | 0.0.0 0.2.2 3.0.0 | 45
root | THREE | - | - | 1 f n, 2 f h1, 3 f n | 0.0.0 0.2.2 3.0.0 | 45
root | THREE | - | - | 1 f n, 2 f n, 3 f n | 0.0.0 0.2.2 3.0.0 | 45
root | THREE | - | - | 3 f n, 2 f h2, 1 f h1 | 0.0.0 3.0.0 0.2.2 | 45
root | KEYS | - | 1.1 | 2 f n, 1 f h1 | 0.0 0.2 2.1 3.0 3.2 | 33
root | KEYS | 1.1 | 1.1 | 1 i1 n, 2 f h1 | 0.0 0.2 2.1 3.0 3.2 | 30
root | KEYS | - | 1.2 | 1 f n, 2 f m1 | 0.0 0.2 3.0 3.2 2.1 | 38
root | SELECT id FROM a | - | 1.1 | 1 f n | 0 1 2 3 4 | 10
root | SELECT id FROM a | - | 1.2 | 1 f n | 0 3 2 4 1 | 13
root | SELECT id FROM a | 1.1 | - | 1 i1 n | 0 1 2 3 4 | 10
root | SELECT id FROM a WHERE id < 3 | 1.1 | - | 1 r1/1 n | 0 1 | 5
root | SELECT id FROM a WHERE id <= 3 | 1.1 | - | 1 r1/1 n | 0 1 2 | 7
root | SELECT id FROM a WHERE id = 3 | 1.1 | - | 1 r1/1 n | 2 | 3
root | SELECT id FROM a WHERE id >= 3 | 1.1 | - | 1 r1/1 n | 2 3 4 | 7
root | SELECT id FROM a WHERE id > 3 | 1.1 | - | 1 r1/1 n | 3 4 | 5
root | SELECT id FROM a WHERE 3 < id | 1.1 | - | 1 r1/1 n | 3 4 | 5
root | SELECT id FROM a WHERE 3 <= id | 1.1 | - | 1 r1/1 n | 2 3 4 | 7
root | SELECT id FROM a WHERE 3 = id | 1.1 | - | 1 r1/1 n | 2 | 3
root | SELECT id FROM a WHERE 3 >= id | 1.1 | - | 1 r1/1 n | 0 1 2 | 7
root | SELECT id FROM a WHERE 3 > id | 1.1 | - | 1 r1/1 n | 0 1 | 5
root | SELECT id FROM a WHERE id < 0 | 1.1 | - | 1 r1/1 n |  | 1
root | SELECT id FROM a WHERE id < 100 | 1.1 | - | 1 r1/1 n | 0 1 2 3 4 | 11
root | SELECT id FROM a WHERE id = 100 | 1.1 | - | 1 r1/1 n |  | 1
root | SELECT id FROM a WHERE k >= 2 | 1.2 | - | 1 r2/1 n | 2 4 | 5
root | SELECT id FROM a WHERE k < NULL | 1.2 | - | 1 r2/1 n |  | 1
root | SELECT id FROM a WHERE t > 'x' | 1.3 | - | 1 r3/1 n | 1 4 | 5
root | SELECT id FROM a WHERE b = TRUE | 1.4 | - | 1 r4/1 n | {0 3} | 5
alice | KEYS | - | - | 1 f n, 2 f h1 | 0.0 3.0 | 19
alice | KEYS | - | - | 1 f n, 2 f n | 0.0 3.0 | 19
alice | KEYS | - | - | 2 f n, 1 f h1 | 0.0 3.0 | 19
alice | KEYS | 2.2 | - | 1 f n, 2 i2 m1 | 0.0 3.0 | 31
root | SELECT id FROM a WHERE FALSE | - | - | empty |  | 0
root | SELECT id FROM a WHERE 1 = 1 | - | - | 1 f n | 0 1 2 3 4 | 5
root | SELECT a.id FROM a, c | - | - | 1 f n, 2 f n | 0.0 0.1 0.2 0.3 0.4 1.0 1.1 1.2 1.3 1.4 2.0 2.1 2.2 2.3 2.4 3.0 3.1 3.2 3.3 3.4 4.0 4.1 4.2 4.3 4.4 | 35
root | SELECT a.id FROM a, c WHERE a.k < c.k | - | - | 1 f n, 2 f n | 0.1 0.4 2.4 3.1 3.4 4.4 | 35
root | SELECT a.id FROM a, c WHERE a.k = c.k AND a.t = c.t | - | - | 1 f n, 2 f n | 0.0 3.0 | 22
root | SELECT a.id FROM a, c WHERE a.k = c.k AND a.t = c.t | - | - | 1 f n, 2 f h1 | 0.0 3.0 | 22
root | SELECT a.id FROM a, c WHERE a.k = c.k AND a.t = c.t | - | - | 1 f n, 2 f h2 | 0.0 3.0 | 22
root | SELECT a.id FROM a, c WHERE a.k = c.k AND a.t = c.t | - | any | 1 f n, 2 f m1 | 0.0 3.0 | 22
alice | SELECT a.id FROM a, c WHERE a.k = c.k AND a.t = c.t | - | - | 1 f n, 2 f n | 0.0 3.0 | 19
root | SELECT a.id FROM a, c WHERE a.k = c.k AND a.id = c.id | - | - | 1 f n, 2 f n | 0.0 | 21
root | SELECT a.id FROM a, c WHERE a.b = c.b AND a.t = c.t | - | - | 1 f n, 2 f n | 0.0 0.3 3.0 3.3 4.2 | 25
root | SELECT a.id FROM a, c WHERE a.b = c.b AND a.t = c.t | - | - | 1 f n, 2 f h2 | 0.0 0.3 3.0 3.3 4.2 | 25
root | SELECT a.id FROM a, c WHERE a.t = c.t AND a.k = c.k | - | - | 1 f n, 2 f n | 0.0 3.0 | 22
root | SELECT a.id FROM a, c WHERE a.k = c.k AND c.id IN (1, 3) | - | - | 1 f n, 2 f n | 0.0 0.2 3.0 3.2 | 20
root | SELECT a.id FROM a, c WHERE a.k = c.k AND c.id IN (2, 5) | - | - | 1 f n, 2 f n | 2.1 | 18
root | SELECT a.id FROM a, c WHERE a.k = c.k AND c.id > 4 | - | - | 1 f n, 2 f n |  | 15
alice | SELECT a.id FROM a, c WHERE a.k = c.k AND c.id > 4 | - | - | 1 f n, 2 f n |  | 10
root | FIRST | - | - | 1 f n, 2 f n, 3 f n | 0.0.0 0.2.0 2.1.2 3.0.3 3.2.3 | 45
root | MIDDLE | - | - | 1 f n, 2 f n, 3 f n, 4 f n | 0.0.0.0 0.2.0.2 2.1.2.1 3.0.3.0 3.2.3.2 | 65
root | BARE | - | - | 2 f n, 1 f n |  | 0
root | BARE | - | 1.1 | 2 f n, 1 f h1 |  | 0
root | BARE | 1.2 2.2 | - | 2 i2 n, 1 i2 m1 |  | 0
root | SELECT a.id FROM bare, a, c WHERE a.k = c.k | - | - | 1 f n, 2 f n, 3 f h1 |  | 0
root | SELECT a.id FROM a, c, a d WHERE a.k = c.k AND c.k = d.k AND c.id > 4 | - | - | 1 f n, 2 f n, 3 f h2 |  | 15
root | SELECT a.id FROM a, c, a d WHERE a.k = c.k AND c.k = d.k AND c.id > 4 | - | any | 1 f n, 2 f n, 3 f m2 |  | 15
root | SELECT a.id FROM a, c WHERE a.k = c.k AND a.id = 3 | 2.2 | - | 1 f n, 2 f n | 2.1 | 9
root | SELECT a.id FROM a, c WHERE a.k = c.k AND a.id = 3 | 2.2 | - | 1 f n, 2 f h1 | 2.1 | 9
root | SELECT a.id FROM a, c WHERE a.k = c.k AND a.id = 3 | 1.1 2.2 | - | 1 r1/2 n, 2 f n | 2.1 | 7
root | SELECT a.id FROM a, c WHERE a.k = c.k AND a.id = 3 | 2.2 | - | 1 f n, 2 i2 n | 2.1 | 20
root | SELECT a.id FROM a, c WHERE a.k = c.k AND a.id = 3 | 2.2 | any | 1 f n, 2 i2 n | 2.1 | 9
root | SELECT a.id FROM a, c WHERE a.k = c.k AND a.id = 3 | 2.2 | any | 1 f n, 2 i2 m1 | 2.1 | 9
root | SELECT a.id FROM a, c WHERE a.k = c.k AND a.id = 3 | 2.1 | - | 1 f n, 2 f n | 2.1 | 15
alice | SELECT a.id FROM a, c WHERE a.k = c.k AND a.id = 3 | 2.2 | - | 1 f n, 2 f n |  | 8
root | SELECT a.id FROM a, c WHERE a.k = c.k AND a.id = 1 | 2.2 | - | 1 f n, 2 f n | 0.0 0.2 | 15
root | SELECT a.id FROM a, c WHERE a.k = c.k AND a.id = 2 | 2.2 | - | 1 f n, 2 f n |  | 6
root | SELECT a.id FROM a, c WHERE a.k = c.k AND a.id = 5 | 2.2 | - | 1 f n, 2 f n |  | 6
root | SELECT a.id FROM a, c WHERE a.k = c.k AND a.id IN (2, 3) | 2.2 | - | 1 f n, 2 f n | 2.1 | 10
root | SELECT a.id FROM a, c WHERE a.k = c.k AND a.id IN (3, 5) | 2.2 | - | 1 f n, 2 f h1 | 2.1 | 10
root | SELECT a.id FROM a, c WHERE a.k = c.k AND a.id IN (2, 3, 5) | 2.2 | - | 1 f n, 2 f n | 2.1 | 19
root | SELECT a.id FROM a, c WHERE a.k = c.k AND a.t = c.t AND a.id = 5 | 2.3 | - | 1 f n, 2 f n |  | 9
root | SELECT a.id FROM a, c WHERE a.k = c.k AND a.id = 3 AND c.id > 4 | 2.2 | - | 1 f n, 2 f n |  | 8
root | SELECT a.id FROM a, c, a d WHERE a.k = c.k AND c.id = d.id AND a.id = 3 | 2.2 3.1 | - | 1 f n, 2 f n, 3 f n | 2.1.1 | 13
root | SELECT id FROM a | 1.1 | any | 1 i1 n | 0 1 2 3 4 | 5
root | SELECT id FROM a | 1.2 | any | 1 i2 n | 0 1 2 3 4 | 5
root | SELECT id FROM a WHERE id > 3 | 1.1 | any | 1 r1/1 n | 3 4 | 5
root | KEYS | - | any | 1 f n, 2 f m1 | 0.0 0.2 2.1 3.0 3.2 | 25
root | KEYS | 1.2 2.2 | any | 1 i2 n, 2 i2 m1 | 0.0 0.2 2.1 3.0 3.2 | 25
root | KEYS | 1.2 2.2 | any | 1 i2 n, 2 i2 h1 | 0.0 0.2 2.1 3.0 3.2 | 25
root | NUMBERS | 1.1 2.1 | any | 1 i1 n, 2 i1 n | 0.0 1.1 2.2 3.3 4.4 | 25
alice | KEYS | 2.2 | any | 1 f n, 2 i2 m1 | 0.0 3.0 | 19
root | SELECT id FROM a WHERE FALSE | - | any | empty |  | 0
root | LEFT | - | - | 1 f n, 2 f n | 0.0 0.2 1.null 2.1 3.0 3.2 4.null | 25
root | LEFT | - | - | 1 f n, 2 f h1 | 0.0 0.2 1.null 2.1 3.0 3.2 4.null | 25
root | LEFT | - | any | 1 f n, 2 f n | 0.0 0.2 1.null 2.1 3.0 3.2 4.null | 25
alice | LEFT | - | - | 1 f n, 2 f n | 0.0 1.null 2.null 3.0 4.null | 19
alice | LEFT | - | - | 1 f n, 2 f h1 | 0.0 1.null 2.null 3.0 4.null | 19
root | SELECT a.id FROM a LEFT JOIN c ON a.k < c.k | - | - | 1 f n, 2 f n | 0.1 0.4 1.null 2.4 3.1 3.4 4.4 | 35
root | SELECT a.id FROM a LEFT JOIN c ON a.k = c.k AND a.t = c.t | - | - | 1 f n, 2 f n | 0.0 1.null 2.null 3.0 4.null | 25
root | SELECT a.id FROM a LEFT JOIN c ON a.k = c.k AND a.t = c.t | - | - | 1 f n, 2 f h2 | 0.0 1.null 2.null 3.0 4.null | 26
root | SELECT a.id FROM a LEFT JOIN c ON a.k = c.k WHERE a.id = 3 | - | - | 1 f n, 2 f n | 2.1 | 15
root | SELECT a.id FROM a LEFT JOIN c ON a.k = c.k WHERE a.id = 3 | - | - | 1 f n, 2 f h1 | 2.1 | 17
root | SELECT a.id FROM a LEFT JOIN c ON a.k = c.k WHERE c.k IS NULL | - | - | 1 f n, 2 f n | 1.null 4.null | 25
root | SELECT a.id FROM a LEFT JOIN c ON a.k = c.k LEFT JOIN a d ON c.id = d.id | - | - | 1 f n, 2 f n, 3 f n | 0.0.0 0.2.2 1.null.null 2.1.1 3.0.0 3.2.2 4.null.null | 47
root | SELECT a.id FROM bare LEFT JOIN a ON bare.k = a.k | - | - | 1 f n, 2 f n |  | 0
root | SELECT a.id FROM bare LEFT JOIN a ON bare.k = a.k | - | - | 1 f n, 2 f h1 |  | 0
";
