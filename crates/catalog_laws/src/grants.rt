//! Laws of grants.

ghost use Rattle.catalog_laws.specs.GrantLaws.{AnyPart, ChangeGrantsAlone, Given, GrantsAfterGrant, GrantsAfterRevoke, Kept};

/// SELECT on any part of a table is granted exactly where SELECT on some column is. A GRANT and a REVOKE change the grants
/// on their table and nothing else. After a GRANT these are those of before and those that it gives, and each role that
/// belongs to one of its roles is granted what it names. After a REVOKE they are those of before that it does not take, and
/// a role keeps what other names give it.
pub fn law_grants()
    ensures any_part { AnyPart }
    ensures alone { ChangeGrantsAlone }
    ensures grants_after_grant { GrantsAfterGrant }
    ensures given { Given }
    ensures grants_after_revoke { GrantsAfterRevoke }
    ensures kept { Kept }
{}
