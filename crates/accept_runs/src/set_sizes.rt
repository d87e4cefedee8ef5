//! Estimated numbers of combinations of rows of sets of entries.

use crate::planned::{Asked, Planned, lent, make_planned};
use crate::rows::{fields, has_number};
use crate::stores::made;
use stats::{EntrySet, card, selections};
use std::alloc::{AllocError, AllocGlobal, Global};
use std::process::Abort;
use std::test::Fail;
use store::Store;

// A query, the entries whose statistics are not known, a set of entries, and its size.
const ROWS: &str = "\
SELECT id FROM deal |  | 1 | 5
SELECT id FROM deal |  |  | 1
SELECT id FROM deal | 1 | 1 | 1000
SELECT id FROM bare |  | 1 | 1
SELECT id FROM bare WHERE id = 3 |  | 1 | 1
SELECT deal.id FROM deal, region |  | 1 | 5
SELECT deal.id FROM deal, region |  | 2 | 3
SELECT deal.id FROM deal, region |  | 1 2 | 15
SELECT deal.id FROM deal, region | 2 | 1 2 | 5000
SELECT a.id FROM a, b |  | 1 2 | 1000000
SELECT deal.id FROM deal, bare |  | 1 2 | 1
SELECT deal.id FROM bare, deal |  | 1 2 | 5
SELECT deal.id FROM deal, bare, region |  | 1 2 3 | 3
SELECT deal.id FROM deal, bare, region |  | 1 3 | 15
SELECT deal.id FROM deal, bare, region |  | 1 2 | 1
SELECT deal.id FROM deal, bare, region |  | 2 3 | 3
EIGHT | 1 2 3 4 5 6 7 8 | 1 2 3 | 1000000000
EIGHT | 1 2 3 4 5 6 7 8 | 2 4 6 8 | 1000000000000
EIGHT | 1 2 3 4 5 6 7 8 | 1 2 3 4 5 | 1099511627776
EIGHT | 1 2 3 4 5 6 7 8 | 1 2 3 4 5 6 7 8 | 1099511627776
SELECT t1.id FROM a t1, b t2, a t3, b t4, a t5, b t6, a t7, b t8 |  | 1 2 3 4 5 6 7 8 | 1099511627776
EMPTY_LAST | 1 2 3 4 5 6 7 | 1 2 3 4 5 6 7 8 | 1
EMPTY_FIRST | 2 3 4 5 6 7 8 | 1 2 3 4 5 6 7 8 | 1099511627776
EMPTY_FIRST | 2 3 4 5 6 7 8 | 1 2 3 4 | 1000000000
SELECT t1.id FROM x t1, x t2, x t3, x t4, x t5 WHERE t1.id = t2.id | 1 2 3 4 5 | 1 2 3 4 5 | 109951162777
SELECT t1.id FROM x t1, x t2, x t3, x t4, x t5 WHERE t1.id = t2.id | 1 2 3 4 5 | 1 2 3 4 | 100000000000
SELECT t1.id FROM x t1, x t2, x t3, x t4, x t5 WHERE t1.id = t2.id | 1 2 3 4 5 | 1 3 4 5 | 1000000000000
CHAIN | 1 2 3 4 5 6 7 8 | 1 2 3 4 5 6 7 8 | 109951
CHAIN | 1 2 3 4 5 6 7 8 | 1 3 5 7 | 1000000000000
CLIQUE | 1 2 3 4 5 6 7 8 | 1 3 5 7 | 1000000
CLIQUE | 1 2 3 4 5 6 7 8 | 1 2 3 4 5 | 109
CLIQUE | 1 2 3 4 5 6 7 8 | 1 2 3 4 5 6 7 8 | 1
SELECT id FROM deal WHERE region = 1 |  | 1 | 2
SELECT id FROM deal WHERE id = 3 |  | 1 | 1
SELECT id FROM deal WHERE id = 3 AND parts = 0 |  | 1 | 1
SELECT id FROM deal WHERE id BETWEEN 3 AND 3 |  | 1 | 1
SELECT id FROM deal WHERE id <> 3 AND parts <> 0 |  | 1 | 3
SELECT id FROM deal WHERE id <> 3 AND region = 1 |  | 1 | 2
SELECT id FROM deal WHERE region = 1 AND id <> 3 |  | 1 | 1
SELECT id FROM deal WHERE NOT (id = 3 OR region <> 1) |  | 1 | 2
SELECT id FROM deal WHERE id <> 3 AND id <> 3 |  | 1 | 4
SELECT id FROM a WHERE id < 11 |  | 1 | 10
SELECT id FROM a WHERE id < 11 | 1 | 1 | 333
SELECT id FROM a WHERE id = 7 AND id = 8 |  | 1 | 1
SALES |  | 1 | 5
SALES |  | 2 | 3
SALES |  | 1 2 | 7
SELECT deal.id FROM deal, region WHERE deal.region = region.id AND deal.id <> 3 |  | 1 | 4
SELECT deal.id FROM deal, region WHERE deal.region = region.id AND deal.id <> 3 |  | 2 | 3
SELECT deal.id FROM deal, region WHERE deal.region = region.id AND deal.id <> 3 |  | 1 2 | 5
SELECT deal.id FROM deal, region WHERE deal.region = region.id AND deal.region = 2 |  | 1 | 2
SELECT deal.id FROM deal, region WHERE deal.region = region.id AND deal.region = 2 |  | 2 | 1
SELECT deal.id FROM deal, region WHERE deal.region = region.id AND deal.region = 2 |  | 1 2 | 1
SELECT deal.id FROM deal, region, region r WHERE deal.region = region.id OR deal.region = r.id |  | 1 2 | 15
SELECT deal.id FROM deal, region, region r WHERE deal.region = region.id OR deal.region = r.id |  | 1 2 3 | 33
SELECT id FROM deal WHERE CURRENT_USER = 'bob' |  | 1 | 5
SELECT id FROM deal WHERE CURRENT_USER = 'bob' |  |  | 1
SELECT id FROM deal WHERE FALSE |  | 1 | 5
SELECT id FROM deal WHERE TRUE AND CURRENT_USER = 'bob' AND id <> 3 |  | 1 | 4
";

// The entries whose numbers are in a list.
fn set_of(list: &str) -> EntrySet {
    let mut set = EntrySet::none();
    for entry in 0..8 {
        if has_number(list, entry) {
            set = set.with(entry);
        }
    }
    set
}

fn size(alloc: Global, planned: &Planned, set: EntrySet) -> Result<u64, AllocError> {
    let statistics = lent(alloc, planned.statistics.as_slice())?;
    let conditions = planned.setting.conditions.as_slice();
    let selections = selections(alloc, &statistics, conditions)?;
    Ok(card(&statistics, selections.as_slice(), set))
}

fn has_size(
    rt: &(impl Abort + AllocGlobal),
    store: &Store<Global>,
    line: &str,
) -> Result<(), AllocError> {
    let [query, unknown, set, want, _, _, _] = fields(line);
    let asked = Asked {
        query,
        indexes: "",
        unknown,
    };
    let planned = make_planned(rt, store, asked)?;
    let size = size(rt.alloc(), &planned, set_of(set))?;
    let got = format!(in rt.alloc(); "{size}")?;
    assert_eq!(rt; got.as_str(), want, "{line}");
    Ok(())
}

#[test]
fn sizes_of_sets(rt: HostRuntime) -> Result<(), Fail> {
    let store = made(rt.alloc())?;
    assert!(rt; !ROWS.is_empty());
    for line in ROWS.lines() {
        has_size(&rt, &store, line)?;
    }
    Ok(())
}
