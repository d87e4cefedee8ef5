//! Tests of hostile use, through public calls: malicious plans, broken texts of tables, limits, and writers that fail.
//! docs/ACCEPTANCE.md lists them.
#![tactic(auto)]

#[cfg(test)]
mod broken_tables;
#[cfg(test)]
mod limits;
#[cfg(test)]
mod long_texts;
#[cfg(test)]
mod malicious_plans;
#[cfg(test)]
mod public_calls;
#[cfg(test)]
mod rows;
#[cfg(test)]
mod writers;
