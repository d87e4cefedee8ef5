//! Planning a role's query.

ghost use Rattle.std.specs.Prelude.{◌≡◌, [], IfOk, map};
ghost use Rattle.stats.specs.View.{stats_of};
ghost use Rattle.resolve.specs.View.{bound_of};
ghost use Rattle.store.specs.Database.{Database};
ghost use Rattle.engine.specs.Plans.{IsAdmitted, IsPlanFor};
ghost use Rattle.engine.specs.SeenTables.{AreSeenIn};

use crate::plans::Plan;
use crate::seen_statistics::seen_statistics;
use crate::setting::setting;
use memory::Heap;
use resolve::Bound;
use seen_tables::Seen;
use stats::Stats;
use std::alloc::AllocError;
use store::Store;
use syntax::{law_parsing_is_determined, law_queries_have_tables};

// Each of some statistics, as the search takes them.
pub(crate) fn each_of<'s, A: Heap>(
    alloc: A,
    statistics: &'s [Stats<A>],
) -> Result<Vec<&'s Stats<A>, A>, AllocError>
    ensures { IfOk result (λ each. map (λ s. stats_of s.now) each.items ≡ map (λ s. stats_of s) statistics.now) }
{
    let mut each = Vec::new(alloc);
    for one in statistics {
        each.push(one)?;
    }
    Ok(each)
}

/// The plan of a role's bound query: of the codes that it may have the one of the least cost, by the statistics of the rows that the
/// role sees. What is not known of these rows is found out, and kept for the next query. It fails where memory runs out.
pub fn plan_with<A: Heap>(
    alloc: A,
    store: &Store<A>,
    role: &str,
    bound: &Bound<'_, A>,
    seen: &mut Seen<A>,
) -> Result<Plan<A>, AllocError>
    requires admitted { IsAdmitted store.now.catalog role.now (bound_of bound.now) }
    requires seen { AreSeenIn store.now seen.old }
    ensures plan { IfOk result (λ plan. IsPlanFor store.now role.now (bound_of bound.now) plan) }
    ensures seen { AreSeenIn store.now seen.new }
{
    law_queries_have_tables();
    law_parsing_is_determined();
    let setting = setting(alloc, store.catalog(), role, bound)?;
    let frame = setting.frame.as_slice();
    let statistics = seen_statistics(alloc, store, role, bound, frame, seen)?;
    let each = each_of(alloc, statistics.as_slice())?;
    let found = planning::Plan::new(alloc, &bound.query, &setting, &each)?;
    let cost = found.cost();
    let code = found.into_code();
    drop(each);
    Ok(Plan::new(setting, statistics, code, cost))
}

/// The same where nothing is known of the rows that roles see, and nothing is kept.
pub fn plan<A: Heap>(
    alloc: A,
    store: &Store<A>,
    role: &str,
    bound: &Bound<'_, A>,
) -> Result<Plan<A>, AllocError>
    requires { IsAdmitted store.now.catalog role.now (bound_of bound.now) }
    ensures { IfOk result (λ plan. IsPlanFor store.now role.now (bound_of bound.now) plan) }
{
    law_nothing_known();
    let mut seen = Seen::new(alloc);
    plan_with(alloc, store, role, bound, &mut seen)
}

/// Of whatever database it is right that nothing is known of the rows that roles see.
#[tactic(auto, using(crate::proofs::SeenTables::none_seen))]
pub fn law_nothing_known()
    ensures { (database : Database) → AreSeenIn database [] }
{}
