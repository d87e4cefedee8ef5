//! Tests of the run of codes and of their expected costs: combinations, their order and the steps that are counted; statistics of
//! tables, factors of conditions, estimated sizes, costs, and the search for the least code. docs/ACCEPTANCE.md lists them.
#![tactic(auto)]

#[cfg(test)]
mod cases;
#[cfg(test)]
mod combination_size;
#[cfg(test)]
mod costed_queries;
#[cfg(test)]
mod costs;
#[cfg(test)]
mod counted;
#[cfg(test)]
mod drawn_tables;
#[cfg(test)]
mod every_code;
#[cfg(test)]
mod factors;
#[cfg(test)]
mod least_codes;
#[cfg(test)]
mod least_of_all;
#[cfg(test)]
mod left_trails;
#[cfg(test)]
mod planned;
#[cfg(test)]
mod rows;
#[cfg(test)]
mod runs;
#[cfg(test)]
mod set_sizes;
#[cfg(test)]
mod slow_source;
#[cfg(test)]
mod steps_counted;
#[cfg(test)]
mod stores;
#[cfg(test)]
mod texts;
#[cfg(test)]
mod trivial;
#[cfg(test)]
mod without_thirds;
