//! Laws of audits.

ghost use Rattle.audit_laws.specs.AcceptedPlans.{AcceptedAreRight};
ghost use Rattle.audit_laws.specs.ExplainedPlans.{ExplainedAreAccepted, ExplainedArePlans};

use bound_plans::{law_columns_are_found, law_marks_are_right, law_names_bind_back};
use catalog_laws::law_well_formed;
use plan_texts::law_plans_read_back;
use planning::{law_best_is_there, law_shapes_mean_same};
use query_laws::law_admitted;
use report::law_order_of_combinations;
use rewrite::law_plans_are_accepted;
use row_terms::law_written_means;
use syntax::{law_parsing_is_determined, law_queries_have_tables};

/// An audit is accepted only of a plan that is read for a text that the role may ask; and in every content of the tables the shape of
/// its code gives exactly the combinations of rows that the role sees on which every movable conjunct of the query is true, so that
/// over them the query has the answer that `serve` writes.
pub fn law_accepted_plans_are_right()
    ensures { AcceptedAreRight }
{
    law_written_means();
    law_shapes_mean_same();
    law_well_formed();
    law_queries_have_tables();
    law_order_of_combinations();
}

/// What explains a text that the role may ask is the text of a plan: the one with the best code, which is always there.
pub fn law_explained_texts_are_plans()
    ensures { ExplainedArePlans }
{
    law_best_is_there();
    law_queries_have_tables();
}

/// The plan that explains a text is accepted by its audit. The names of columns have to be words of the grammar, which they are
/// where the statements of tables are read from texts.
pub fn law_explained_plans_are_accepted()
    ensures { ExplainedAreAccepted }
{
    law_plans_read_back();
    law_names_bind_back();
    law_columns_are_found();
    law_marks_are_right();
    law_plans_are_accepted();
    law_best_is_there();
    law_queries_have_tables();
    law_parsing_is_determined();
    law_admitted();
}
