//! Conditions in the forms that planning needs.
#![tactic(auto)]

mod carrying;
mod connectives;
mod equalities;
mod folding;
mod forms;
mod laws;
mod null_rows;
mod numbering;
mod offsets;
mod operands;
mod rebuilding;
mod same;

pub use carrying::carry_inward;
pub use connectives::{both, conjunct_count, factored, parted};
pub use equalities::{
    column_equals, column_sides, columns_equal, equated_columns, is_never_true, literal_side,
    not_null_form,
};
pub use folding::fold;
pub use forms::{folded, inward};
pub use laws::{
    law_both_hold, law_equalities_chain, law_equality_turns, law_factoring_keeps_rows,
    law_folding_keeps_value, law_folds_what_is_closed, law_inward_keeps_truth, law_never_true,
    law_not_null_keeps_rows, law_null_rows_are_rejected, law_offsets_keep_value, law_parts_hold,
    law_same_is_equal,
};
pub use null_rows::rejecting_columns;
pub use numbering::{conjunct_numbered, numbered};
pub use offsets::copy_without_offsets;
pub use operands::{Operands, is_same_node, operands_in};
pub use rebuilding::{Rule, rebuild};
pub use same::is_same;
