//! Laws of the checks of aggregates and of types.

ghost use Rattle.type_laws.specs.Faults.{MisplacedIsLeast, MistypedIsLeast, QueryFaultIsLeast};

/// Of all faults the checks report the least offset; a misplaced part goes before a mistyped operation.
pub fn law_least_fault()
    ensures misplaced { MisplacedIsLeast }
    ensures mistyped { MistypedIsLeast }
    ensures query { QueryFaultIsLeast }
{}
