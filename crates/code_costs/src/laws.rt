//! Laws of the definitions.

ghost use Rattle.code_costs.specs.Best.{GuardsPlayNoPart};

/// Guards play no part in which codes a plan may have, nor in what they cost: these depend on the statistics, the planning list,
/// the indexes and the wanted column alone.
pub fn law_guards_play_no_part()
    ensures { GuardsPlayNoPart }
{}
