//! Laws of the aggregates and groups of admitted queries: the offsets of aggregates ascend and are all different, and the values
//! of the items of groups and of HAVING are of their types.
#![tactic(auto)]

mod laws;
mod offsets;

pub use laws::law_group_values;
pub use offsets::{
    law_aggregates_have_offsets, law_binding_keeps_offsets, law_text_offsets_ascend,
};
