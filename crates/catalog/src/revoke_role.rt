//! `REVOKE group FROM member` (PostgreSQL: REVOKE).

ghost use Rattle.std.specs.Prelude.{◌≡◌};
ghost use Rattle.catalog.specs.Checks.{first_refusal, unless};
ghost use Rattle.catalog.specs.RevokeRole.{after_revoke_role, checks_revoke_role};
ghost use Rattle.catalog.specs.Changes.{IsExactChange};

use crate::catalog::Catalog;
use memory::Heap;
use row_objects::remove_membership;
use value::Refusal;

fn check_revoke_role<A: Heap>(
    catalog: &Catalog<A>,
    actor: &str,
    group: &str,
    member: &str,
) -> Option<Refusal>
    ensures { result ≡ first_refusal (checks_revoke_role catalog.now actor.now group.now member.now) }
{
    if !catalog.is_superuser(actor) {
        Some(Refusal::InsufficientPrivilege)
    } else if !(catalog.is_role(group) && catalog.is_role(member)) {
        Some(Refusal::UndefinedObject)
    } else {
        None
    }
}

impl<A: Heap> Catalog<A> {
    fn remove_member(&mut self, group: &str, member: &str)
        ensures { self.new ≡ after_revoke_role self.old group.now member.now }
    {
        remove_membership(&mut self.memberships, group, member);
    }

    /// Takes a member out of a group, if no check refuses it. It takes no memory.
    pub(crate) fn revoke_role(
        &mut self,
        actor: &str,
        group: &str,
        member: &str,
    ) -> Result<(), Refusal>
        ensures { IsExactChange self.old self.new (unless (first_refusal (checks_revoke_role self.old actor.now group.now member.now)) (after_revoke_role self.old group.now member.now)) result }
    {
        if let Some(why) = check_revoke_role(self, actor, group, member) {
            return Err(why);
        }
        self.remove_member(group, member);
        Ok(())
    }
}
