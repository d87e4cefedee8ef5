//! The offsets of the aggregates of queries.

ghost use Rattle.group_laws.specs.Groups.{AggregatesHaveValues};
ghost use Rattle.group_laws.specs.Offsets.{AggregatesHaveOffsets, BindingKeepsOffsets, TextOffsetsAscend};

use syntax::law_parsing_is_determined;

/// The offsets of the aggregates of a text's query, of its items and then of HAVING, ascend.
pub fn law_text_offsets_ascend()
    ensures { TextOffsetsAscend }
{
    law_parsing_is_determined();
}

/// The aggregates of a query have the same offsets when it is bound.
pub fn law_binding_keeps_offsets()
    ensures { BindingKeepsOffsets }
{}

/// No two aggregates of an admitted query, of its items and of HAVING, have one offset. So on a group, whose aggregates
/// are found by their offsets, each has the value of its own argument's values on the combinations of the group's class.
pub fn law_aggregates_have_offsets()
    ensures offsets { AggregatesHaveOffsets }
    // `groups::law_aggregates_of_classes` of every admitted query.
    ensures values { AggregatesHaveValues }
{
    law_text_offsets_ascend();
}
