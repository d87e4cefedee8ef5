//! The law of the rules.

ghost use Rattle.algebra.specs.Keeping.{StepsKeep};

/// A step of any trail on a term whose conditions cannot fault gives such a term, and both mean one bag of combinations in
/// every content of the tables.
pub fn law_steps_keep()
    ensures { StepsKeep }
{}
