//! `GRANT group TO member` (PostgreSQL: GRANT).

ghost use Rattle.std.specs.Prelude.{◌≡◌, ◌&&◌, OnErr, OnOk, true};
ghost use Rattle.catalog.specs.Catalog.{is_role};
ghost use Rattle.catalog.specs.Checks.{first_refusal, unless};
ghost use Rattle.catalog.specs.GrantRole.{after_grant_role, checks_grant_role};
ghost use Rattle.catalog.specs.Changes.{IsChange};

use crate::catalog::Catalog;
use memory::Heap;
use row_objects::{add_membership, closes_loop};
use std::alloc::AllocError;
use value::Refusal;

fn check_grant_role<A: Heap>(
    catalog: &Catalog<A>,
    actor: &str,
    group: &str,
    member: &str,
) -> Option<Refusal>
    ensures { result ≡ first_refusal (checks_grant_role catalog.now actor.now group.now member.now) }
{
    if !catalog.is_superuser(actor) {
        Some(Refusal::InsufficientPrivilege)
    } else if !(catalog.is_role(group) && catalog.is_role(member)) {
        Some(Refusal::UndefinedObject)
    } else if closes_loop(
        &catalog.roles,
        catalog.memberships.as_slice(),
        group,
        member,
    ) {
        Some(Refusal::InvalidGrantOperation)
    } else {
        None
    }
}

impl<A: Heap> Catalog<A> {
    fn add_member(&mut self, group: &str, member: &str) -> Result<(), AllocError>
        requires { (is_role self.old group.now && is_role self.old member.now) ≡ true }
        ensures done { OnOk result (self.new ≡ after_grant_role self.old group.now member.now) }
        ensures unchanged { OnErr result (self.new ≡ self.old) }
    {
        add_membership(self.alloc, &mut self.memberships, group, member)
    }

    /// Makes a role a member of a group, if no check refuses it. One that is a member already stays so.
    pub(crate) fn grant_role(
        &mut self,
        actor: &str,
        group: &str,
        member: &str,
    ) -> Result<(), Refusal>
        ensures { IsChange self.old self.new (unless (first_refusal (checks_grant_role self.old actor.now group.now member.now)) (after_grant_role self.old group.now member.now)) result }
    {
        if let Some(why) = check_grant_role(self, actor, group, member) {
            return Err(why);
        }
        match self.add_member(group, member) {
            Ok(()) => Ok(()),
            Err(_) => Err(Refusal::OutOfMemory),
        }
    }
}
