//! Plans, and the entries of their queries.

use algebra::Step;
use expr::CodeStep;
use memory::{Heap, Items, Text};
use row_ast::Expr;

/// An entry of FROM, as the text of a plan names it.
#[derive(Drop)]
pub struct PlanEntry<A: Heap> {
    /// Its alias.
    pub alias: Text<A>,
    /// The columns of its table.
    pub columns: Items<Text<A>, A>,
}

/// A column of an entry; both count from 1.
#[derive(Clone, Copy, Debug, PartialEq, Eq)]
pub struct SortColumn {
    /// The entry.
    pub entry: u64,
    /// The column.
    pub column: u64,
}

/// The ON of an entry that is joined by a left join; the entry counts from 1.
#[derive(Drop)]
pub struct OnCondition<A: Heap> {
    /// The entry.
    pub entry: u64,
    /// Its ON, the columns qualified by the aliases of their entries.
    pub condition: Expr<A>,
}

/// A step of a code, and true where it is a left join.
#[derive(Clone, Copy, Debug, PartialEq, Eq)]
pub struct PlanStep {
    /// The step.
    pub step: CodeStep,
    /// True where it is a left join.
    pub is_left: bool,
}

/// The code of a plan.
#[derive(Drop)]
pub enum PlanCode<A: Heap> {
    /// No row is read, since a conjunct is never true.
    Empty,
    /// A step for each entry, in the order in which they are joined.
    Steps(Items<PlanStep, A>),
}

/// A plan of a query.
#[derive(Drop)]
pub struct Plan<A: Heap> {
    /// Its cost.
    pub cost: u128,
    /// The planning list, its columns qualified by the aliases of their entries.
    pub filters: Items<Expr<A>, A>,
    /// The ONs of its left joins.
    pub ons: Items<OnCondition<A>, A>,
    /// The order of the entries, and how each is read and joined.
    pub code: PlanCode<A>,
    /// The column of a last sort, if there is one.
    pub sort: Option<SortColumn>,
    /// The steps from the query's term to the plan's.
    pub trail: Items<Step<A>, A>,
}
