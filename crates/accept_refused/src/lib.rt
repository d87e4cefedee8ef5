//! Each request for memory refused in turn, through public calls: replies, plans, audits, statements, the planner's own calls, runs, and
//! events of sessions. docs/ACCEPTANCE.md lists them.
#![tactic(auto)]

#[cfg(test)]
mod answers;
#[cfg(test)]
mod plans;
#[cfg(test)]
mod statements;
#[cfg(test)]
mod steps;
#[cfg(test)]
mod turns;
