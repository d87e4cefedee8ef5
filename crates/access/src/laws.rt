//! Laws of guards.

ghost use Rattle.access.specs.Laws.{AllBypasses, GuardShows, NoneIsUnpermitted};

/// If no policy of the table can fault, the guard is true on a row exactly where the role sees it. It is `All` exactly
/// where the role bypasses the policies, and `None` exactly where it does not and no permissive policy applies to it.
pub fn law_guard()
    ensures shows { GuardShows }
    ensures all { AllBypasses }
    ensures none { NoneIsUnpermitted }
{}
