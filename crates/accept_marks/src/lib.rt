//! Tests of expressions over one entry, which are computed once a row: worked rows, and queries that are drawn from a seed, answered
//! and run by each of their codes as by nested loops. docs/ACCEPTANCE.md lists them.
#![tactic(auto)]

#[cfg(test)]
mod answer_texts;
#[cfg(test)]
mod drawn_queries;
#[cfg(test)]
mod drawn_texts;
#[cfg(test)]
mod exchanged_rows;
#[cfg(test)]
mod passing;
#[cfg(test)]
mod plain_answers;
#[cfg(test)]
mod worked_rows;
