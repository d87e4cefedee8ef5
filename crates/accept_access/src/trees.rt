//! Plans as trees.

use memory::{Items, Text};
use plan_texts::{PlanEntry, read_plan};
use plan_trees::write_tree;
use std::alloc::{AllocError, AllocGlobal, Global};
use std::process::Abort;
use std::test::Fail;

const FROM: &str = "d id region amount;r id least;p id deal";

const TABLES: [&str; 3] = ["deal", "region", "paid"];

fn entries(alloc: Global) -> Result<Vec<PlanEntry<Global>, Global>, AllocError> {
    let mut entries = Vec::new(alloc);
    for row in FROM.split(';') {
        let (alias, names) = row.split_once(' ').unwrap_or((row, ""));
        let mut columns = Items::new(alloc);
        for name in names.split(' ') {
            columns.push(Text::new(alloc, name)?)?;
        }
        entries.push(PlanEntry {
            alias: Text::new(alloc, alias)?,
            columns,
        })?;
    }
    Ok(entries)
}

fn show(rt: &(impl Abort + AllocGlobal), text: &str, want: &str) -> Result<(), AllocError> {
    let entries = entries(rt.alloc())?;
    let Ok(plan) = read_plan(rt.alloc(), entries.as_slice(), text.as_bytes()) else {
        return Err(AllocError);
    };
    let tree = write_tree(rt.alloc(), entries.as_slice(), &TABLES, &plan)?;
    assert_eq!(rt; tree.as_slice(), want.as_bytes(), "{text}");
    Ok(())
}

const INNER: &str = "\
cost 19
filter 1 d.region = r.id
filter 2 d.amount > 10
first d full
hash 1 r full
trail
";

const INNER_TREE: &str = "\
Hash Join  (d.region = r.id)  (cost=19)
  ->  Seq Scan on deal d
        Filter: (d.amount > 10)
  ->  Seq Scan on region r
";

const SORTED: &str = "\
cost 40
filter 1 p.deal IS NULL
filter 2 d.id = 1
filter 3 d.region = r.id
filter 4 d.amount < r.least
filter 5 r.id > 2
on p d.id = p.deal
first d index id by 2
hash 3 r full
left nested p full
sort d.region
trail
";

const SORTED_TREE: &str = "\
Sort  (d.region)  (cost=40)
  ->  Nested Loop Left Join  (d.id = p.deal)
        Filter: (p.deal IS NULL)
        ->  Hash Join  (d.region = r.id)
              Join Filter: (d.amount < r.least)
              ->  Index Scan on deal d  (d.id = 1)
              ->  Seq Scan on region r
                    Filter: (r.id > 2)
        ->  Seq Scan on paid p
";

const EMPTY: &str = "\
cost 0
filter 1 FALSE
empty
sort d.region
trail
";

const EMPTY_TREE: &str = "\
Sort  (d.region)  (cost=0)
  ->  Result
        One-Time Filter: false
";

#[test]
fn plans_are_shown_as_trees(rt: HostRuntime) -> Result<(), Fail> {
    show(&rt, INNER, INNER_TREE)?;
    show(&rt, SORTED, SORTED_TREE)?;
    show(&rt, EMPTY, EMPTY_TREE)?;
    Ok(())
}
