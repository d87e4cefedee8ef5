//! What an auditor may rely on: laws of audits.
#![tactic(auto)]

mod laws;

pub use laws::{
    law_accepted_plans_are_right, law_explained_plans_are_accepted, law_explained_texts_are_plans,
};
