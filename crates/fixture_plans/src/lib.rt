//! Small problems of planning that are drawn from a seed, all codes that their plans may have, the run of codes over tables with
//! indexes that are made for it, and nested loops. The tests compare what others find with what is found here.
#![tactic(auto)]

mod every_code;
mod loops;
mod random;
mod random_problems;
mod worlds;

pub use every_code::all_codes;
pub use loops::{all_combinations, left_combinations, nested_loops, seen_rows};
pub use random::Random;
pub use random_problems::{Drawn, draw, draw_left};
pub use worlds::{no_query, run_into_over, run_marked_over, run_over, tables_of};
