//! `CREATE ROLE name [SUPERUSER] [BYPASSRLS]` (PostgreSQL: CREATE ROLE).

ghost use Rattle.std.specs.Prelude.{◌≡◌, ◌<◌, false, length, OnErr, OnOk};
ghost use Rattle.row_objects.specs.Memberships.{most_roles};
ghost use Rattle.catalog.specs.Catalog.{is_role};
ghost use Rattle.catalog.specs.Checks.{first_refusal, unless};
ghost use Rattle.catalog.specs.CreateRole.{after_create_role, checks_create_role};
ghost use Rattle.catalog.specs.Changes.{IsChange};

use crate::catalog::Catalog;
use memory::Heap;
use row_objects::{MOST_ROLES, Role};
use std::alloc::AllocError;
use value::Refusal;

fn check_create_role<A: Heap>(catalog: &Catalog<A>, actor: &str, name: &str) -> Option<Refusal>
    ensures { result ≡ first_refusal (checks_create_role catalog.now actor.now name.now) }
{
    if !catalog.is_superuser(actor) {
        Some(Refusal::InsufficientPrivilege)
    } else if catalog.is_known(name) {
        Some(Refusal::DuplicateObject)
    } else if catalog.roles() >= MOST_ROLES {
        Some(Refusal::ProgramLimitExceeded)
    } else {
        None
    }
}

impl<A: Heap> Catalog<A> {
    fn add_role(&mut self, name: &str, superuser: bool, bypass_rls: bool) -> Result<(), AllocError>
        requires fresh { is_role self.old name.now ≡ false }
        requires room { length self.old.roles < most_roles }
        ensures done { OnOk result (self.new ≡ after_create_role self.old name.now superuser bypass_rls) }
        ensures unchanged { OnErr result (self.new ≡ self.old) }
    {
        self.roles.insert(
            self.alloc,
            name,
            Role {
                superuser,
                bypass_rls,
            },
        )
    }

    /// Makes a role, if no check refuses it.
    pub(crate) fn create_role(
        &mut self,
        actor: &str,
        name: &str,
        superuser: bool,
        bypass_rls: bool,
    ) -> Result<(), Refusal>
        ensures { IsChange self.old self.new (unless (first_refusal (checks_create_role self.old actor.now name.now)) (after_create_role self.old name.now superuser bypass_rls)) result }
    {
        if let Some(why) = check_create_role(self, actor, name) {
            return Err(why);
        }
        match self.add_role(name, superuser, bypass_rls) {
            Ok(()) => Ok(()),
            Err(_) => Err(Refusal::OutOfMemory),
        }
    }
}
