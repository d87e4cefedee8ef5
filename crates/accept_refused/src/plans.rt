//! Plans of joins of which each request for memory is refused in turn, from the text to the run: `simplify`, `search`, `place`, `judge`
//! and `run` give their whole result or are out of memory, and a run takes no more steps than its work.

use crate::turns::{Ended, Run, ended_here, refuse_in_turn, requests_of_sales};
use access::frame;
use code_costs::{MAX_ENTRIES, Problem};
use expr::{Access, Code, CodeStep, Method};
use fixture_plans::{run_over, tables_of};
use fixtures::sales;
use joindp::search;
use memory::{Failure, Heap, Items, boxed};
use metered::Metered;
use resolve::{Bound, bind};
use rewrite::{Simplified, place, simplify};
use row_ast::Query;
use row_terms::written;
use scope::Entry;
use stats::Stats;
use std::alloc::{AllocError, Global};
use std::process::Abort;
use store::Store;
use syntax::parse_query;
use tables::Table;
use trailcheck::{Setting, Verdict, judge};
use tuples::{Guard, Work, World};

// A role and its query over the store of `sales`; the least code and its cost; and the combinations that it gives with the most steps
// of its run.
#[derive(Clone, Copy)]
struct Planned {
    role: &'static str,
    text: &'static str,
    code: [CodeStep; 2],
    cost: u128,
    combinations: usize,
    work: u128,
}

const DEALS: CodeStep = CodeStep {
    entry: 1,
    access: Access::Full,
    method: Method::Nested,
};

const HASHED: CodeStep = CodeStep {
    entry: 2,
    access: Access::Full,
    method: Method::Hash { conjunct: 1 },
};

const NESTED: CodeStep = CodeStep {
    entry: 2,
    access: Access::Full,
    method: Method::Nested,
};

// Alice sees three of five deals, two of them with a region: 5 steps read the deals, 3 the regions, and there are nine pairs. With one
// region that is wanted there are three pairs. Audit sees all: 5 + 2 * 3 steps go to the hash table, and four pairs have equal keys.
static PLANNED: [Planned; 3] = [
    Planned {
        role: "alice",
        text: "SELECT d.id, r.name FROM deal d, region r WHERE d.region = r.id",
        code: [DEALS, NESTED],
        cost: 15,
        combinations: 2,
        work: 17,
    },
    Planned {
        role: "alice",
        text: "SELECT d.amount/d.parts FROM deal d, region r WHERE d.region = r.id AND r.name = 'north'",
        code: [DEALS, NESTED],
        cost: 9,
        combinations: 1,
        work: 11,
    },
    Planned {
        role: "audit",
        text: "SELECT d.id FROM deal d, region r WHERE d.region = r.id",
        code: [DEALS, HASHED],
        cost: 19,
        combinations: 4,
        work: 23,
    },
];

fn all_planned() -> &'static [Planned] {
    &PLANNED
}

// The contents of the table of each entry.
fn contents<'s, A: Heap>(
    alloc: A,
    store: &'s Store<A>,
    entries: &[Entry<'_, A>],
) -> Result<Vec<&'s Table<A>, A>, AllocError> {
    let mut all = Vec::new(alloc);
    for entry in entries {
        let Some(table) = store.contents(entry.table.name()) else {
            return Err(AllocError);
        };
        all.push(table)?;
    }
    Ok(all)
}

// The columns of deals, and more than regions have.
const COLUMNS: [usize; 5] = [0, 1, 2, 3, 4];

// Of each entry the statistics of the rows that the role sees.
fn statistics<A: Heap>(
    alloc: A,
    rows: &[&Table<A>],
    frame: &[Guard<A>],
    role: &str,
) -> Result<Items<Stats<A>, A>, AllocError> {
    let mut all = Items::new(alloc);
    for (table, guard) in rows.iter().zip(frame.iter()) {
        all.push(Stats::of_seen(alloc, table, guard, role, &COLUMNS)?)?;
    }
    Ok(all)
}

fn lent<A: Heap>(alloc: A, statistics: &[Stats<A>]) -> Result<Vec<&Stats<A>, A>, AllocError> {
    let mut all = Vec::new(alloc);
    for stats in statistics {
        all.push(stats)?;
    }
    Ok(all)
}

// No index of any entry.
fn no_indexes<A: Heap>(alloc: A, entries: usize) -> Result<Items<Items<u64, A>, A>, AllocError> {
    let mut all = Items::new(alloc);
    for _ in 0..entries {
        all.push(Items::new(alloc))?;
    }
    Ok(all)
}

// The code of the search, which is the wanted one at its cost.
fn searched<A: Heap>(
    rt: &impl Abort,
    alloc: A,
    rows: &[&Table<A>],
    setting: &Setting<A>,
    planned: &Planned,
) -> Result<Code<A>, AllocError> {
    let statistics = statistics(alloc, rows, setting.frame.as_slice(), planned.role)?;
    let lent = lent(alloc, statistics.as_slice())?;
    assert!(rt;
        lent.len() == setting.frame.len(),
        "not each has statistics"
    );
    assert!(rt; setting.frame.len() <= MAX_ENTRIES, "too many entries");
    assert!(rt;
        setting.lefts.len() <= setting.frame.len(),
        "too many left joins"
    );
    let problem = Problem::new(alloc, setting, &lent, None)?;
    let (code, cost) = search(alloc, &problem)?;
    let is_wanted = match &code {
        Code::Steps(steps) => steps.as_slice() == planned.code.as_slice(),
        Code::Empty => false,
    };
    assert!(rt; is_wanted && cost == planned.cost, "{}", planned.text);
    Ok(code)
}

// The number of combinations that the run of a code gives, and the steps that it took, wherever it ended.
fn run_code<A: Heap>(
    alloc: A,
    bound: &Bound<'_, A>,
    rows: &[&Table<A>],
    setting: &Setting<A>,
    code: &Code<A>,
    role: &str,
) -> (Result<Option<usize>, AllocError>, u128) {
    let tables = match tables_of(alloc, rows, setting.frame.as_slice()) {
        Ok(tables) => tables,
        Err(error) => return (Err(error), 0),
    };
    let world = World {
        role,
        query: &bound.query,
        tables: &tables,
    };
    let mut work = Work::new();
    let found = match run_over(alloc, &world, setting, code, None, &mut work) {
        Ok(Some(combinations)) => Ok(Some(combinations.len())),
        Ok(None) => Ok(None),
        Err(error) => Err(error),
    };
    (found, work.count())
}

// Plans a bound query and runs its code. The steps that are made are accepted.
fn plan_bound<A: Heap>(
    rt: &impl Abort,
    alloc: A,
    store: &Store<A>,
    bound: &Bound<'_, A>,
    planned: &Planned,
) -> Result<(), AllocError> {
    let entries = bound.entries.as_slice();
    let rows = contents(alloc, store, entries)?;
    let Simplified {
        trail,
        conditions,
        lefts,
    } = simplify(alloc, &bound.query)?;
    let setting = Setting {
        frame: frame(alloc, store.catalog(), planned.role, entries)?,
        indexed: no_indexes(alloc, entries.len())?,
        conditions,
        lefts,
    };
    let setting = boxed(alloc, setting)?;
    let code = searched(rt, alloc, &rows, &setting, planned)?;
    let trail = place(alloc, &setting, trail, &code)?;
    let term = written(alloc, entries.len(), &bound.query)?;
    let verdict = judge(alloc, &setting, term, trail.as_slice(), &code)?;
    assert_eq!(rt; verdict, Verdict::Accepted, "{}", planned.text);
    let (found, steps) = run_code(alloc, bound, &rows, &setting, &code, planned.role);
    assert!(rt; steps <= planned.work, "{}: {steps} steps", planned.text);
    assert_eq!(rt; found?, Some(planned.combinations), "{}", planned.text);
    Ok(())
}

fn plan_query<A: Heap>(
    rt: &impl Abort,
    alloc: A,
    store: &Store<A>,
    query: &Query<A>,
    planned: &Planned,
) -> Result<(), AllocError> {
    match bind(alloc, store.catalog(), query) {
        Ok(bound) => plan_bound(rt, alloc, store, &bound, planned),
        Err(Failure::OutOfMemory) => Err(AllocError),
        Err(_) => panic!(rt; "{}", planned.text),
    }
}

fn plan<A: Heap>(
    rt: &impl Abort,
    alloc: A,
    store: &Store<A>,
    planned: &Planned,
) -> Result<(), AllocError> {
    match parse_query(alloc, planned.text) {
        Ok(query) => plan_query(rt, alloc, store, &query, planned),
        Err(Failure::OutOfMemory) => Err(AllocError),
        Err(_) => panic!(rt; "{}", planned.text),
    }
}

impl Run for Planned {
    fn ended(&self, rt: &(impl Abort + AllocGlobal), heap: &Metered<Global>, nth: u64) -> Ended {
        let store = sales(heap).expect(rt, "no store");
        let is_refused = plan(rt, heap, &store, self).is_err();
        ended_here(rt, heap, nth, is_refused, self.text)
    }
}

#[test]
fn plans_are_made_and_run_or_out_of_memory(rt: HostRuntime) {
    let first = requests_of_sales(&rt);
    for planned in all_planned() {
        let refused = refuse_in_turn(&rt, planned, first, planned.text);
        assert!(&rt; refused > 20, "{refused}");
    }
}
