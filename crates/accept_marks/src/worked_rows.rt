//! Worked rows of expressions over one entry, which are computed once a row: what is answered, with and without an index.

use crate::passing::passes;
use std::test::Fail;

// Items: the fault of a row that comes in no kept combination is none; one that comes in some is reported once.
const ITEMS: &str = "-- fault_of_a_row_that_joins_nothing
alice: SELECT d.amount/d.parts AS q FROM deal d, region r WHERE d.region = r.id AND r.name = 'north'
0
q
25

-- fault_of_a_row_that_joins_three_rows
alice: SELECT d.amount/d.parts AS q FROM deal d, region r, region s WHERE d.region = r.id AND r.name = 'south'
5
fault 22012 at 15

-- fault_of_a_row_that_stage_where_drops
alice: SELECT 10/(d.id - 2) AS q FROM deal d, region r WHERE 1/d.id > 0 AND r.id = 1
0
q
-10

-- fault_of_a_row_that_a_movable_conjunct_drops
alice: SELECT d.amount/d.parts AS q FROM deal d, region r WHERE d.parts <> 0 AND r.id = 1
0
q
20
25

-- limit_hides_no_fault
alice: SELECT d.amount/d.parts AS q FROM deal d, region r LIMIT 0
5
fault 22012 at 15

-- limit_without_a_fault
alice: SELECT d.amount/d.parts AS q FROM deal d, region r WHERE d.parts <> 0 LIMIT 0
0
q

-- one_expression_twice
alice: SELECT d.amount/d.parts AS a, d.amount/d.parts AS b FROM deal d, region r WHERE d.parts <> 0 AND r.id = 1
0
a,b
20,20
25,25

-- the_first_of_two_alike_faults
alice: SELECT d.amount/d.parts AS a, d.amount/d.parts AS b FROM deal d, region r
5
fault 22012 at 15

-- current_user_in_an_item
alice: SELECT CASE WHEN d.owner = CURRENT_USER THEN d.amount/d.id ELSE 1/0 END AS k FROM deal d, region r WHERE r.id = 1
0
k
20
25
100

-- current_user_of_another_role
audit: SELECT CASE WHEN d.owner = CURRENT_USER THEN d.amount/d.id ELSE 1/0 END AS k FROM deal d, region r WHERE r.id = 1
5
fault 22012 at 65

-- fault_of_a_hidden_row
bob: SELECT d.amount/d.parts AS q FROM deal d, region r WHERE d.region = r.id
0
q
10
\\N

-- item_without_columns
alice: SELECT 1/0 AS z FROM deal d, region r WHERE d.id = 99
0
z

-- case_that_no_combination_reaches
alice: SELECT CASE WHEN r.id IS NULL THEN 1/0 ELSE 7 END AS k FROM deal d JOIN region r ON d.region = r.id
0
k
7
7

-- items_in_order
alice: SELECT d.amount/d.parts AS q, r.id FROM deal d, region r WHERE d.parts <> 0 ORDER BY q DESC, id LIMIT 2
0
q,id
25,1
25,2
";

// Fragile conjuncts: the first in written order drops rows where it is false or null, a later one none, and no fault is lost.
const CONDITIONS: &str = "-- first_conjunct_over_two_entries
alice: SELECT d.id FROM deal d, region r WHERE d.amount/(r.id - 1) > 0 AND d.amount/d.parts > 1000 AND d.parts <> 0
5
fault 22012 at 48

-- fault_of_the_first_conjunct
alice: SELECT d.id FROM deal d, region r WHERE d.amount/(d.parts - 5) > 0 AND d.id/(r.id - 2) > 0
5
fault 22012 at 48

-- fault_of_the_first_conjunct_on_a_row_that_joins_nothing
alice: SELECT d.id FROM deal d, region r WHERE d.amount/d.parts > 0 AND d.region = r.id AND r.name = 'north'
0
id
1

-- second_conjunct_of_the_same_entry_drops_no_row
alice: SELECT d.id FROM deal d, region r WHERE d.amount/d.parts > 0 AND d.id/3 > 0
5
fault 22012 at 48

-- null_drops_a_row
audit: SELECT d.id FROM deal d, region r WHERE d.amount/d.parts > 0 AND CAST(r.name AS bigint) > 0 AND d.id = 4
0
id

-- null_of_the_second_conjunct_drops_no_row
audit: SELECT d.id FROM deal d, region r WHERE CAST(r.name AS bigint) > 0 AND d.amount/d.parts > 0 AND d.id = 4
5
fault 22P02 at 40

-- rows_of_the_first_of_two_alike_tables
alice: SELECT a.id, b.id AS o FROM deal a, deal b WHERE a.amount/a.parts > 22 AND a.parts <> 0 AND b.parts <> 0
0
id,o
1,1
1,5

-- rows_of_the_second_of_two_alike_tables
alice: SELECT a.id, b.id AS o FROM deal a, deal b WHERE b.amount/b.parts > 22 AND a.parts <> 0 AND b.parts <> 0
0
id,o
1,1
5,1

-- first_conjunct_without_columns
alice: SELECT d.id FROM deal d, region r WHERE 1/2 > 0 AND CAST(d.owner AS bigint) > 0
0
id

-- second_conjunct_without_columns
alice: SELECT d.id FROM deal d, region r WHERE CAST(d.owner AS bigint) > 0 AND 1/2 > 0
5
fault 22P02 at 40

-- first_conjunct_of_on_keeps_a_row
alice: SELECT d.id FROM deal d JOIN region r ON d.amount/d.parts > 22 WHERE CAST(d.owner AS bigint) > 0 AND d.parts <> 0
5
fault 22P02 at 69

-- first_conjunct_of_on_drops_all_rows
alice: SELECT d.id FROM deal d JOIN region r ON d.amount/d.parts > 30 WHERE CAST(d.owner AS bigint) > 0 AND d.parts <> 0
0
id
";

// Aggregates: arguments over one entry and over two, and what is evaluated on groups.
const GROUPS: &str = "-- arguments_over_one_entry_and_two
alice: SELECT count(d.amount/d.parts) AS a, count(d.amount/(r.id - 1)) AS b FROM deal d, region r WHERE d.parts <> 0 AND r.id = 2
0
a,b
2,2

-- faults_of_two_arguments
alice: SELECT sum(r.id/(r.id - 1)) AS a, sum(d.amount/d.parts) AS b FROM region r, deal d
5
fault 22012 at 15

-- fault_of_the_second_argument
alice: SELECT sum(d.amount/d.parts) AS b, sum(r.id/(r.id - 1)) AS a FROM region r, deal d WHERE d.parts <> 0
5
fault 22012 at 43

-- sums_of_groups
alice: SELECT r.name, sum(d.amount/d.parts) AS q FROM deal d JOIN region r ON d.region = r.id WHERE d.parts <> 0 GROUP BY r.name
0
name,q
north,25

-- item_of_a_group
alice: SELECT d.region + 1 AS k, count(*) FROM deal d, region r GROUP BY d.region
0
k,count
2,3
3,3
\\N,3
";

// Queries of one entry.
const ONE_ENTRY: &str = "-- first_conjunct_keeps_a_row
alice: SELECT id FROM deal WHERE amount/parts > 22 AND CAST(owner AS bigint) > 0 AND parts <> 0
5
fault 22P02 at 48

-- first_conjunct_drops_all_rows
alice: SELECT id FROM deal WHERE amount/parts > 30 AND CAST(owner AS bigint) > 0 AND parts <> 0
0
id

-- fault_before_a_conjunct_that_drops
alice: SELECT id FROM deal WHERE CAST(owner AS bigint) > 0 AND amount/parts > 30 AND parts <> 0
5
fault 22P02 at 26
";

#[test]
fn expressions_over_one_entry_in_written_order(rt: HostRuntime) -> Result<(), Fail> {
    passes(rt.alloc(), ITEMS)?;
    passes(rt.alloc(), CONDITIONS)?;
    passes(rt.alloc(), GROUPS)?;
    passes(rt.alloc(), ONE_ENTRY)
}
