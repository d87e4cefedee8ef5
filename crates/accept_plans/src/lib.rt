//! Tests of plans: the terms that the steps of a trail make, the verdicts on trails, codes, the conditions that a query is planned
//! with, the plans that are made and written as texts, and the audits of texts. docs/ACCEPTANCE.md lists them.
#![tactic(auto)]

#[cfg(test)]
mod audits;
#[cfg(test)]
mod chains;
#[cfg(test)]
mod code_order;
#[cfg(test)]
mod conditions;
#[cfg(test)]
mod drawn_texts;
#[cfg(test)]
mod explains;
#[cfg(test)]
mod plan_reading;
#[cfg(test)]
mod planned;
#[cfg(test)]
mod planned_texts;
#[cfg(test)]
mod queries;
#[cfg(test)]
mod rewrites;
#[cfg(test)]
mod rows;
#[cfg(test)]
mod steps;
#[cfg(test)]
mod stores;
#[cfg(test)]
mod term_texts;
#[cfg(test)]
mod turned_back;
#[cfg(test)]
mod verdicts;
