//! Statements of an actor.

ghost use Rattle.std.specs.Prelude.{◌≡◌, true};
ghost use Rattle.row_ast.specs.View.{statement_of};
ghost use Rattle.catalog.specs.Checks.{first_refusal, unless};
ghost use Rattle.catalog.specs.Changes.{after, changed, checks, takes_no_memory, IsChange, IsExactChange};

use crate::catalog::Catalog;
use memory::Heap;
use row_ast::Statement;
use value::Refusal;

impl<A: Heap> Catalog<A> {
    // A statement of an actor that is a role.
    fn apply_statement(&mut self, actor: &str, statement: &Statement<A>) -> Result<(), Refusal>
        ensures change { IsChange self.old self.new (unless (first_refusal (checks self.old actor.now (statement_of statement.now))) (after self.old actor.now (statement_of statement.now))) result }
        ensures exact { takes_no_memory (statement_of statement.now) ≡ true → IsExactChange self.old self.new (unless (first_refusal (checks self.old actor.now (statement_of statement.now))) (after self.old actor.now (statement_of statement.now))) result }
    {
        match statement {
            Statement::CreateRole {
                name,
                superuser,
                bypass_rls,
            } => self.create_role(actor, name.as_str(), *superuser, *bypass_rls),
            Statement::GrantRole { group, member } => {
                self.grant_role(actor, group.as_str(), member.as_str())
            }
            Statement::RevokeRole { group, member } => {
                self.revoke_role(actor, group.as_str(), member.as_str())
            }
            Statement::CreateTable { name, columns } => {
                self.create_table(actor, name.as_str(), columns.as_slice())
            }
            Statement::SetOwner { table, owner } => {
                self.set_owner(actor, table.as_str(), owner.as_str())
            }
            Statement::SetRowSecurity { table, setting } => {
                self.set_row_security(actor, table.as_str(), *setting)
            }
            Statement::GrantSelect(grant) => self.grant_select(actor, grant),
            Statement::RevokeSelect(grant) => self.revoke_select(actor, grant),
            Statement::CreatePolicy(policy) => self.create_policy(actor, policy),
            Statement::DropPolicy { name, table } => {
                self.drop_policy(actor, name.as_str(), table.as_str())
            }
            Statement::CreateIndex {
                name,
                table,
                column,
            } => self.create_index(actor, name.as_str(), table.as_str(), column.as_str()),
        }
    }

    /// Applies a statement of an actor, and counts it; refused, it changes nothing. First that 2^64 - 1 were accepted (54000),
    /// then that the actor is no role (42704). REVOKE, the settings of row security and DROP POLICY take no memory.
    pub fn apply(&mut self, actor: &str, statement: &Statement<A>) -> Result<(), Refusal>
        ensures change { IsChange self.old self.new (changed self.old actor.now (statement_of statement.now)) result }
        ensures exact { takes_no_memory (statement_of statement.now) ≡ true → IsExactChange self.old self.new (changed self.old actor.now (statement_of statement.now)) result }
    {
        let before = self.change_number();
        if before >= u64::MAX {
            return Err(Refusal::ProgramLimitExceeded);
        }
        if !self.is_role(actor) {
            return Err(Refusal::UndefinedObject);
        }
        match self.apply_statement(actor, statement) {
            Ok(()) => {
                self.set_change_number(before + 1);
                Ok(())
            }
            Err(why) => Err(why),
        }
    }
}
