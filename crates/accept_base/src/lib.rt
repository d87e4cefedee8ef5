//! Tests of values, columns, tables, conditions over whole columns, and kept plans: rows with expected values from outside the
//! program, or from one value at a time. docs/ACCEPTANCE.md lists them.
#![tactic(auto)]

#[cfg(test)]
mod answered_rows;
#[cfg(test)]
mod bits;
#[cfg(test)]
mod cases;
#[cfg(test)]
mod compared;
#[cfg(test)]
mod comparisons;
#[cfg(test)]
mod conditions;
#[cfg(test)]
mod connectives;
#[cfg(test)]
mod deals;
#[cfg(test)]
mod kept_plans;
#[cfg(test)]
mod memory_refused;
#[cfg(test)]
mod numbers;
#[cfg(test)]
mod records;
#[cfg(test)]
mod table_texts;
#[cfg(test)]
mod text_conditions;
#[cfg(test)]
mod text_lengths;
#[cfg(test)]
mod truth_values;
#[cfg(test)]
mod values;
