//! Laws of types.

ghost use Rattle.type_laws.specs.Laws.{TypesAreDetermined, TypesByRules, ValuesHaveTypes, WhatRulesTypeIsAdmitted};
ghost use Rattle.type_laws.specs.Nulls.{ArithmeticNullOnlyOfNull, CastNullOnlyOfNull, NegationNullOnlyOfNull};
ghost use Rattle.type_laws.specs.Nulls.{BetweenUnknownOnlyOfNull, ComparisonUnknownOnlyOfNull, ConditionUnknownOnlyOfNull, EqualityUnknownOnlyOfNull, MembershipUnknownOnlyOfNull};

/// What type checking admits with a type has that type by the rules.
pub fn law_types_by_rules()
    ensures { TypesByRules }
{}

/// What has a type by the rules is admitted by type checking, with that type.
pub fn law_what_rules_type_is_admitted()
    ensures { WhatRulesTypeIsAdmitted }
{}

/// An expression has at most one type by the rules.
pub fn law_types_are_determined()
    ensures { TypesAreDetermined }
{}

/// On cells of their types, an expression with a type gives a value of that type, or null, or a fault.
pub fn law_values_have_types()
    ensures { ValuesHaveTypes }
{}

/// On operands of its types, an operator is null or unknown only where an operand is null.
pub fn law_null_only_of_null()
    ensures arithmetic { ArithmeticNullOnlyOfNull }
    ensures negation { NegationNullOnlyOfNull }
    ensures comparison { ComparisonUnknownOnlyOfNull }
    ensures equality { EqualityUnknownOnlyOfNull }
    ensures membership { MembershipUnknownOnlyOfNull }
    ensures between { BetweenUnknownOnlyOfNull }
    ensures cast { CastNullOnlyOfNull }
    ensures condition { ConditionUnknownOnlyOfNull }
{}
