//! Verdicts on trails.

/// A reason for which a trail is refused, with its number.
#[derive(Clone, Copy, Debug, PartialEq, Eq)]
pub enum Reason {
    /// 1: the trail has more than 16384 steps, or a step makes a term of more than 4096 nodes.
    Limit,
    /// 2: the path leads to no node.
    NoNode,
    /// 3: the rule does not fit the node, or there is no rule of that number, direction and number of arguments.
    Misfit,
    /// 4: the condition of the rule fails.
    Unmet,
    /// 5: the code of the plan is not admissible.
    Code,
    /// 6: the trail ends at another term than the shape of the code.
    End,
}

/// The line and the reason of a refused trail.
#[derive(Clone, Copy, Debug, PartialEq, Eq)]
pub struct Refusal {
    /// The number of the step, from 1; 0 for the code, and one more than there are steps for the end.
    pub line: u64,
    /// The reason.
    pub reason: Reason,
}

/// The answer of the checker.
#[derive(Clone, Copy, Debug, PartialEq, Eq)]
pub enum Verdict {
    /// The trail leads from the written term to the shape of the code.
    Accepted,
    /// It does not, or the code is not admissible.
    Refused(Refusal),
}
