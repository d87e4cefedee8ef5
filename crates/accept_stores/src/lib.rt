//! Tests of stores that go through the whole program: opened from a schema text and files, loaded, filled to their limits, asked
//! with memory that is refused, and what is said of refused texts; plans over what is known of the rows that roles see; calls
//! that take no memory, and queries over products that take little; rows in aligned columns; long replies, and line feeds.
//! docs/ACCEPTANCE.md lists them.
#![tactic(auto)]

#[cfg(test)]
mod aligned_columns;
#[cfg(test)]
mod explanations;
#[cfg(test)]
mod known_rows;
#[cfg(test)]
mod limits;
#[cfg(test)]
mod line_feeds;
#[cfg(test)]
mod loads;
#[cfg(test)]
mod long_replies;
#[cfg(test)]
mod memory_refused;
#[cfg(test)]
mod no_memory;
#[cfg(test)]
mod opening;
#[cfg(test)]
mod product_requests;
#[cfg(test)]
mod stores;
