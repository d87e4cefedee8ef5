//! Laws of types: what type checking admits has a type by the rules, and its values are of that type; of all faults the
//! least offset is reported.
#![tactic(auto)]

mod fault_laws;
mod laws;

pub use fault_laws::law_least_fault;
pub use laws::{
    law_null_only_of_null, law_types_are_determined, law_types_by_rules, law_values_have_types,
    law_what_rules_type_is_admitted,
};
