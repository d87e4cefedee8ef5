//! The law of the described types.

ghost use Rattle.descriptions.specs.Laws.{DescribedTypes};

/// Each item of an admitted query is of the described type, by the rules. So its values are of that type, or null
/// (query_laws::law_admitted_values).
pub fn law_described_types()
    ensures { DescribedTypes }
{}
