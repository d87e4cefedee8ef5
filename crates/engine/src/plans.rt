//! The plan of a role's query.

ghost use Rattle.std.specs.Prelude.{◌≡◌, map, true};
ghost use Rattle.expr.specs.View.{code_of};
ghost use Rattle.stats.specs.View.{stats_of};
ghost use Rattle.trailcheck.specs.Admissible.{is_admissible};
ghost use Rattle.trailcheck.specs.View.{setting_of};
ghost use Rattle.engine.specs.Plans.{IsSomePlan};

use expr::Code;
use memory::{Heap, Items};
use stats::Stats;
use std::marker::Model;
use trailcheck::Setting;

/// The plan of a role's query: what it was made from, which it owns, and its code, the best of some query for these. It does not
/// have the query, which whoever runs it has.
#[derive(Drop)]
pub struct Plan<A: Heap> {
    setting: Setting<A>,
    statistics: Items<Stats<A>, A>,
    code: Code<A>,
    cost: u128,
}

impl<A: Heap> Model for Plan<A> {
    ghost use Rattle.engine.specs.Plans as spec;

    ghost Value = { spec.Plan };

    ghost use Rattle.std.specs.Prelude.{ℕ};
    ghost use Rattle.std.specs.Coded.{codes, coded_ℕ};
    ghost use Rattle.expr.specs.declared.movable_expr.MovableExpr as movable_expr;

    ghost coded = { Prim.hlevel (codes, movable_expr.the_code ℕ coded_ℕ) };

    ghost use Rattle.engine.specs.PlanView.{plan_of};

    ghost view = { plan_of };

    ghost invariant = { λ p. spec.IsSomePlan (plan_of p) };
}

impl<A: Heap> Plan<A> {
    /// A plan of its parts.
    pub(crate) fn new(
        setting: Setting<A>,
        statistics: Items<Stats<A>, A>,
        code: Code<A>,
        cost: u128,
    ) -> Plan<A>
        requires { IsSomePlan record { setting = setting_of setting; statistics = map (λ s. stats_of s) statistics; cost = cost; code = code_of code } }
        ensures { result ≡ record { setting = setting_of setting; statistics = map (λ s. stats_of s) statistics; cost = cost; code = code_of code } }
    {
        Plan {
            setting,
            statistics,
            code,
            cost,
        }
    }

    /// What it was made under: the guards, the indexes and the planning list.
    pub(crate) fn setting(&self) -> &Setting<A>
        ensures { setting_of result.now ≡ self.now.setting }
    {
        &self.setting
    }

    /// Its code, which is admissible.
    pub(crate) fn code(&self) -> &Code<A>
        ensures code { code_of result.now ≡ self.now.code }
        ensures admissible { is_admissible self.now.setting self.now.code ≡ true }
    {
        &self.code
    }

    /// The cost of its code, in steps of work.
    pub fn cost(&self) -> u128
        ensures { result ≡ self.now.cost }
    {
        self.cost
    }
}
