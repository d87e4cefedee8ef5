//! Asking, under plans that are shared.

ghost use Rattle.std.specs.Prelude.{◌≡◌, IfOk, IsOk, Ok, OnErr, OnOk, true};
ghost use Rattle.engine.specs.Analysis.{admitted, is_refused_at_once, query_read};
ghost use Rattle.engine.specs.BoundView.{bound_of};
ghost use Rattle.engine.specs.QueryView.{query_of};
ghost use Rattle.engine.specs.SeenTables.{AreSeenIn};
ghost use Rattle.shared_plans.specs.Recent.{recent_of};
ghost use Rattle.shared_plans.specs.View.{key_of};
ghost use Rattle.sessions.specs.AtOnce.{asked_at_once};
ghost use Rattle.sessions.specs.Taking.{asked_of};
ghost use Rattle.session.specs.Kept.{AreKept};
ghost use Rattle.session.specs.Machine.{present_key};
ghost use Rattle.session.specs.Taking.{Answers, IsDescription, Readied, Replies};

use descriptions::describe;
use engine::{Bound, Plan, Query, Seen, admit, plan_with, read_query, run_plan};
use memory::Heap;
use replies::Reply;
use sessions::Sessions;
use shared_plans::{PlanKey, Plans};
use std::alloc::AllocError;
use value::Refusal;

/// What sessions share between texts.
#[derive(Drop)]
pub(crate) struct Shared<A: Heap> {
    /// The plans of the 64 texts that were asked last.
    pub(crate) plans: Plans<Plan<A>, A>,
    /// What is known of the rows that roles see.
    pub(crate) seen: Seen<A>,
}

// The key of a role's text after the changes and loads so far.
fn present_key<A: Heap>(
    alloc: A,
    sessions: &Sessions<A>,
    role: &str,
    text: &str,
) -> Result<PlanKey<A>, AllocError>
    ensures { IfOk result (λ key. key_of key ≡ present_key sessions.now.database sessions.now.loads role.now text.now) }
{
    let changes = sessions.store().catalog().change_number();
    PlanKey::new(alloc, text, role, changes, sessions.loads())
}

// Looks up the key of a role's text, and keeps a new plan where there is none: the plan of its bound query is then the last used.
fn ready_plan<A: Heap>(
    alloc: A,
    sessions: &Sessions<A>,
    shared: &mut Shared<A>,
    role: &str,
    text: &str,
    bound: &Bound<'_, A>,
) -> Result<(), AllocError>
    requires kept { AreKept sessions.now.database sessions.now.loads shared.old.plans.entries }
    requires seen { AreSeenIn sessions.now.database shared.old.seen }
    requires bound { admitted sessions.now.database.catalog role.now text.now ≡ Ok (bound_of bound.now) }
    ensures ready { OnOk result (Readied sessions.now.database sessions.now.loads role.now text.now (bound_of bound.now) shared.old.plans shared.new.plans) }
    ensures seen { AreSeenIn sessions.now.database shared.new.seen }
    ensures unchanged { OnErr result (shared.new.plans ≡ shared.old.plans) }
{
    let key = present_key(alloc, sessions, role, text)?;
    if shared.plans.look_up(&key) {
        return Ok(());
    }
    match plan_with(alloc, sessions.store(), role, bound, &mut shared.seen) {
        Ok(plan) => shared.plans.keep(key, plan),
        Err(error) => Err(error),
    }
}

// The reply to a bound query, under the plan that is shared for its key.
fn answer_bound<A: Heap>(
    alloc: A,
    sessions: &Sessions<A>,
    shared: &mut Shared<A>,
    role: &str,
    text: &str,
    bound: &Bound<'_, A>,
) -> Result<Reply<A>, AllocError>
    requires kept { AreKept sessions.now.database sessions.now.loads shared.old.plans.entries }
    requires seen { AreSeenIn sessions.now.database shared.old.seen }
    requires bound { admitted sessions.now.database.catalog role.now text.now ≡ Ok (bound_of bound.now) }
    ensures replies { Replies sessions.now.database sessions.now.loads role.now text.now shared.old.plans shared.new.plans result }
    ensures kept { AreKept sessions.now.database sessions.now.loads shared.new.plans.entries }
    ensures seen { AreSeenIn sessions.now.database shared.new.seen }
{
    match ready_plan(alloc, sessions, shared, role, text, bound) {
        Ok(()) => match shared.plans.last_used() {
            Some(plan) => run_plan(alloc, sessions.store(), role, bound, plan, &shared.seen),
            None => Err(AllocError),
        },
        Err(error) => Err(error),
    }
}

// The reply to a query of a role.
fn answer_query<A: Heap>(
    alloc: A,
    sessions: &Sessions<A>,
    shared: &mut Shared<A>,
    role: &str,
    text: &str,
    query: &Query<A>,
) -> Result<Reply<A>, AllocError>
    requires kept { AreKept sessions.now.database sessions.now.loads shared.old.plans.entries }
    requires seen { AreSeenIn sessions.now.database shared.old.seen }
    requires query { query_read sessions.now.database.catalog role.now text.now ≡ Ok (query_of query.now) }
    ensures replies { Replies sessions.now.database sessions.now.loads role.now text.now shared.old.plans shared.new.plans result }
    ensures kept { AreKept sessions.now.database sessions.now.loads shared.new.plans.entries }
    ensures seen { AreSeenIn sessions.now.database shared.new.seen }
{
    match admit(alloc, sessions.store().catalog(), role, query) {
        Ok(Ok(bound)) => answer_bound(alloc, sessions, shared, role, text, &bound),
        Ok(Err(reply)) => Ok(reply),
        Err(error) => Err(error),
    }
}

// The reply to a role's text.
fn answer<A: Heap>(
    alloc: A,
    sessions: &Sessions<A>,
    shared: &mut Shared<A>,
    role: &str,
    text: &str,
) -> Result<Reply<A>, AllocError>
    requires kept { AreKept sessions.now.database sessions.now.loads shared.old.plans.entries }
    requires seen { AreSeenIn sessions.now.database shared.old.seen }
    ensures replies { Replies sessions.now.database sessions.now.loads role.now text.now shared.old.plans shared.new.plans result }
    ensures kept { AreKept sessions.now.database sessions.now.loads shared.new.plans.entries }
    ensures seen { AreSeenIn sessions.now.database shared.new.seen }
    ensures at_once { is_refused_at_once sessions.now.database.catalog role.now text.now ≡ true → IsOk result }
{
    match read_query(alloc, sessions.store().catalog(), role, text) {
        Ok(Ok(query)) => {
            let reply = answer_query(alloc, sessions, shared, role, text, &query);
            drop(query);
            reply
        }
        Ok(Err(reply)) => Ok(reply),
        Err(error) => Err(error),
    }
}

/// The reply to the role and the text that a session asks, or why it asks nothing. Where the text is admitted, its key is looked
/// up: with a plan that is kept for it nothing is planned, and a new plan is kept. It fails where memory runs out.
pub(crate) fn answer_asked<A: Heap>(
    alloc: A,
    sessions: &Sessions<A>,
    shared: &mut Shared<A>,
    asked: Result<(&str, &str), Refusal>,
) -> Result<Result<Reply<A>, Refusal>, AllocError>
    requires kept { AreKept sessions.now.database sessions.now.loads shared.old.plans.entries }
    requires seen { AreSeenIn sessions.now.database shared.old.seen }
    ensures answers { Answers sessions.now (asked_of (λ t. t.now) asked.entry) (recent_of shared.old.plans) (recent_of shared.new.plans) result }
    ensures kept { AreKept sessions.now.database sessions.now.loads shared.new.plans.entries }
    ensures seen { AreSeenIn sessions.now.database shared.new.seen }
    ensures at_once { asked_at_once sessions.now (asked_of (λ t. t.now) asked.entry) ≡ true → IsOk result }
{
    match asked {
        Ok((role, text)) => match answer(alloc, sessions, shared, role, text) {
            Ok(reply) => Ok(Ok(reply)),
            Err(error) => Err(error),
        },
        Err(code) => Ok(Err(code)),
    }
}

/// The name and the type of each column of the text that a session asks about, or why it asks nothing. It fails where memory runs out.
pub(crate) fn describe_asked<A: Heap>(
    alloc: A,
    sessions: &Sessions<A>,
    asked: Result<(&str, &str), Refusal>,
) -> Result<Result<Reply<A>, Refusal>, AllocError>
    ensures described { IfOk result (λ r. IsDescription sessions.now (asked_of (λ t. t.now) asked.entry) r) }
    ensures at_once { asked_at_once sessions.now (asked_of (λ t. t.now) asked.entry) ≡ true → IsOk result }
{
    match asked {
        Ok((role, text)) => match describe(alloc, sessions.store().catalog(), role, text) {
            Ok(reply) => Ok(Ok(reply)),
            Err(error) => Err(error),
        },
        Err(code) => Ok(Err(code)),
    }
}
