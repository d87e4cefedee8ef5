//! Steps of a trail, and the rewrites that they name.

ghost use Rattle.std.specs.Prelude.{◌≡◌};
ghost use Rattle.algebra.specs.Steps as spec;

use memory::{Heap, Items};
use row_terms::Branch;

/// One step of a trail: a rule, at the node of a path.
#[derive(Drop)]
pub struct Step<A: Heap> {
    /// The number of the rule.
    pub rule: u64,
    /// True where the rule is taken from right to left.
    pub is_reverse: bool,
    /// The path to the node.
    pub path: Items<Branch, A>,
    /// Its arguments: filters of the run at the node, counted from 0, or an entry, counted from 1.
    pub arguments: Items<u64, A>,
}

/// A rule in one direction, with its arguments. docs/DEFINITIONS.md lists the rules by their numbers.
#[derive(Clone, Copy, Debug, PartialEq, Eq)]
pub enum Rewrite {
    SplitFilter,
    MergeFilters,
    SwapFilters,
    PushLeft,
    PullLeft,
    PushRight,
    PullRight,
    SwapSides,
    ExchangeRight,
    PushUnderGuard,
    PullOverGuard,
    DropGuard,
    AddGuard { number: u64 },
    DropFilter,
    CopyFilter { p: u64 },
    AddEquality { p: u64, q: u64 },
    DropEquality { p: u64, q: u64 },
    AddConstant { p: u64, q: u64 },
    DropConstant { p: u64, q: u64 },
    CarryNot,
    FoldLiterals,
    EmptyFilter,
    EmptyInput,
    FactorOut,
    NotNull,
    MakeInner,
    PushUnderLeft,
    PullOverLeft,
}

/// A reason for which there is no term after a step.
#[derive(Clone, Copy, Debug, PartialEq, Eq)]
pub enum Reason {
    /// The path leads to no node.
    NoNode,
    /// The rule does not fit the node, or there is no rule of that number, direction and number of arguments.
    Misfit,
    /// The condition of the rule fails.
    Unmet,
}

// The rewrite of a rule without arguments, from left to right.
fn forward(rule: u64) -> Option<Rewrite>
    ensures { result ≡ spec.forward rule }
{
    match rule {
        1 => Some(Rewrite::SplitFilter),
        2 => Some(Rewrite::MergeFilters),
        3 => Some(Rewrite::SwapFilters),
        4 => Some(Rewrite::PushLeft),
        5 => Some(Rewrite::PushRight),
        6 => Some(Rewrite::SwapSides),
        7 => Some(Rewrite::ExchangeRight),
        8 => Some(Rewrite::PushUnderGuard),
        9 => Some(Rewrite::DropGuard),
        10 => Some(Rewrite::DropFilter),
        13 => Some(Rewrite::CarryNot),
        14 => Some(Rewrite::FoldLiterals),
        15 => Some(Rewrite::EmptyFilter),
        16 => Some(Rewrite::EmptyInput),
        17 => Some(Rewrite::FactorOut),
        18 => Some(Rewrite::NotNull),
        19 => Some(Rewrite::MakeInner),
        20 => Some(Rewrite::PushUnderLeft),
        _ => None,
    }
}

// The same from right to left.
fn backward(rule: u64) -> Option<Rewrite>
    ensures { result ≡ spec.backward rule }
{
    match rule {
        4 => Some(Rewrite::PullLeft),
        5 => Some(Rewrite::PullRight),
        8 => Some(Rewrite::PullOverGuard),
        20 => Some(Rewrite::PullOverLeft),
        _ => None,
    }
}

// The rewrite of a rule with one argument, which each has from right to left.
fn backward_of_one(rule: u64, argument: u64) -> Option<Rewrite>
    ensures { result ≡ spec.backward_of_one rule argument }
{
    match rule {
        9 => Some(Rewrite::AddGuard { number: argument }),
        10 => Some(Rewrite::CopyFilter { p: argument }),
        _ => None,
    }
}

// The rewrite of a rule with two arguments.
fn of_two(rule: u64, is_reverse: bool, p: u64, q: u64) -> Option<Rewrite>
    ensures { result ≡ spec.of_two rule is_reverse p q }
{
    match (rule, is_reverse) {
        (11, false) => Some(Rewrite::AddEquality { p, q }),
        (11, true) => Some(Rewrite::DropEquality { p, q }),
        (12, false) => Some(Rewrite::AddConstant { p, q }),
        (12, true) => Some(Rewrite::DropConstant { p, q }),
        _ => None,
    }
}

/// The rewrite of a rule in a direction with its arguments; none where there is no such rule, it has no reverse, or its
/// arguments are not as many.
pub fn rewrite_of(rule: u64, is_reverse: bool, arguments: &[u64]) -> Option<Rewrite>
    ensures { result ≡ spec.rewrite_of rule is_reverse arguments.now }
{
    match arguments {
        [] => {
            if is_reverse {
                backward(rule)
            } else {
                forward(rule)
            }
        }
        [argument] => {
            if is_reverse {
                backward_of_one(rule, *argument)
            } else {
                None
            }
        }
        [p, q] => of_two(rule, is_reverse, *p, *q),
        _ => None,
    }
}
