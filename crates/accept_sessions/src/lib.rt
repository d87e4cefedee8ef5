//! Scripts of sessions: events over the store of `sales` with their replies, limits, and memory that is refused.
//! docs/ACCEPTANCE.md lists them.
#![tactic(auto)]

#[cfg(test)]
mod changes;
#[cfg(test)]
mod describes;
#[cfg(test)]
mod kept_plans;
#[cfg(test)]
mod limits;
#[cfg(test)]
mod memory_refused;
#[cfg(test)]
mod plain_machine;
#[cfg(test)]
mod plays;
#[cfg(test)]
mod refusals;
#[cfg(test)]
mod roles;
#[cfg(test)]
mod script_lines;
#[cfg(test)]
mod scripts;
#[cfg(test)]
mod texts;
