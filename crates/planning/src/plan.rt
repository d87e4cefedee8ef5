//! The plan of a query.

ghost use Rattle.std.specs.Prelude.{◌≡◌, ◌≤◌, IfOk, length, map};
ghost use Rattle.expr.specs.Conjuncts.{movable_conjuncts};
ghost use Rattle.expr.specs.View.{bound_query_of, code_of};
ghost use Rattle.stats.specs.View.{stats_of};
ghost use Rattle.algebra.specs.View.{step_of};
ghost use Rattle.trailcheck.specs.View.{setting_of};
ghost use Rattle.rewrite.specs.Laws.{IsSettingOf};
ghost use Rattle.rewrite.specs.Listing.{simplifying};
ghost use Rattle.value.specs.Limits.{most_conjuncts, most_entries};
ghost use Rattle.planning.specs.Best.{BestIsThere, LeastIsBest};
ghost use Rattle.planning.specs.LastSort as sorting;
ghost use Rattle.planning.specs.Plans.{IsPlan};
ghost use Rattle.planning.specs.Wanted as wanted;

use crate::last_sort::last_sort;
use crate::wanted::wanted_column;
use algebra::Step;
use code_costs::Problem;
use expr::{BoundQuery, Code, ColumnId};
use joindp::search;
use memory::{Heap, Items};
use rewrite::{law_plans_are_accepted, place};
use stats::Stats;
use std::alloc::AllocError;
use std::marker::Model;
use trailcheck::Setting;

/// A code before which none comes, by cost and then by its numbers, is the best of all that a plan may have.
#[tactic(auto, using(crate::proofs::Bests::least_is_best))]
pub fn law_least_is_best()
    ensures { LeastIsBest }
{}

/// Every problem of no more left joined entries than entries has a best code, which a plan may have.
#[tactic(auto, using(crate::proofs::Existing::best_is_there))]
pub fn law_best_is_there()
    ensures { BestIsThere }
{}

/// The plan of a query: of the codes that it may have the best by cost. Query, setting and code settle the trail by which the
/// checker accepts it, which is made where it is asked for.
#[derive(Drop)]
pub struct Plan<'p, A: Heap> {
    query: &'p BoundQuery<A>,
    setting: &'p Setting<A>,
    statistics: &'p [&'p Stats<A>],
    code: Code<A>,
    cost: u128,
}

impl<'p, A: Heap> Model for Plan<'p, A> {
    ghost use Rattle.planning.specs.Plans as spec;

    ghost Value = { spec.Plan };

    ghost use Rattle.std.specs.Prelude.{ℕ};
    ghost use Rattle.std.specs.Coded.{codes, coded_ℕ};
    ghost use Rattle.expr.specs.declared.movable_expr.MovableExpr as movable_expr;

    ghost coded = { Prim.hlevel (codes, movable_expr.the_code ℕ coded_ℕ) };

    ghost use Rattle.planning.specs.View.{plan_of};

    ghost view = { plan_of };

    ghost invariant = { λ p. spec.IsPlan (plan_of p) };
}

impl<'p, A: Heap> Plan<'p, A> {
    /// The plan of a query under a setting of its entries with what it is planned with, by the statistics of each entry. It fails where memory runs out.
    pub fn new(
        alloc: A,
        query: &'p BoundQuery<A>,
        setting: &'p Setting<A>,
        statistics: &'p [&'p Stats<A>],
    ) -> Result<Plan<'p, A>, AllocError>
        requires setting { IsSettingOf (bound_query_of query.now) (setting_of setting.now) }
        requires each { length statistics.now ≡ length setting.now.frame }
        requires entries { length setting.now.frame ≤ most_entries }
        requires conjuncts { length (movable_conjuncts (bound_query_of query.now)) ≤ most_conjuncts }
        ensures query { IfOk result (λ p. p.query ≡ bound_query_of query.now) }
        ensures problem { IfOk result (λ p. p.problem ≡ record { setting = setting_of setting.now; statistics = map (λ s. stats_of s.now) statistics.now; wanted = wanted.wanted_column (bound_query_of query.now) }) }
    {
        law_plans_are_accepted();
        law_least_is_best();
        let problem = Problem::new(alloc, setting, statistics, wanted_column(query))?;
        let (code, cost) = search(alloc, &problem)?;
        Ok(Plan {
            query,
            setting,
            statistics,
            code,
            cost,
        })
    }

    /// The code: the best.
    pub fn code(&self) -> &Code<A>
        ensures code { code_of result.now ≡ self.now.code }
        ensures plan { IsPlan self.now }
    {
        &self.code
    }

    /// The code alone.
    pub fn into_code(self) -> Code<A>
        ensures code { code_of result ≡ self.entry.code }
        ensures plan { IsPlan self.entry }
    {
        self.code
    }

    /// The cost of the code, in steps of work.
    pub fn cost(&self) -> u128
        ensures cost { result ≡ self.now.cost }
        ensures plan { IsPlan self.now }
    {
        self.cost
    }

    /// The column by which the combinations of the code are sorted in the end: the wanted one, unless they come in its order.
    pub fn last_sort(&self) -> Option<ColumnId>
        ensures { result ≡ sorting.last_sort self.now.problem self.now.code }
    {
        last_sort(self.setting, &self.code, wanted_column(self.query))
    }

    /// The code and the trail: the steps from the written term of the query to the shape of the code. It is given those that
    /// simplify the query, which are the first, and adds the others. It fails where memory runs out.
    pub fn into_parts(
        self,
        alloc: A,
        trail: Items<Step<A>, A>,
    ) -> Result<(Code<A>, Items<Step<A>, A>), AllocError>
        requires simplifying { map step_of trail ≡ simplifying self.query }
        ensures code { IfOk result (λ parts. code_of parts.0 ≡ self.entry.code) }
        ensures trail { IfOk result (λ parts. map step_of parts.1 ≡ self.entry.trail) }
    {
        let trail = place(alloc, self.setting, trail, &self.code)?;
        Ok((self.code, trail))
    }
}
