//! The laws of the texts of plans.

ghost use Rattle.plan_texts.specs.Reading.{LinesAreTexts, PlansReadBack, ReadIsText, TextsAreRead};
ghost use Rattle.plan_texts.specs.UnreadableLines.{UnreadableIsFirst};

/// The text of a plan is read as the plan.
pub fn law_plans_read_back()
    ensures { PlansReadBack }
{}

/// A text that is read as a plan is a text of the plan, and each line that is read is the text of its content.
pub fn law_read_is_text()
    ensures lines { LinesAreTexts }
    ensures whole { ReadIsText }
{}

/// Each text of a plan is read as the plan, whatever texts its filters have.
pub fn law_texts_are_read()
    ensures { TextsAreRead }
{}

/// Where a text is read as no plan, the line that is reported is the first with which no plan's text goes on: the lines before it
/// begin the text of a plan, and with it they begin none, or it is missing.
#[tactic(auto, using(crate::proofs::FirstUnreadable::unreadable_is_first))]
pub fn law_unreadable_line_is_first()
    ensures { UnreadableIsFirst }
{}
