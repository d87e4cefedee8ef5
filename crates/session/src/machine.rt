//! Sessions over a store, and their steps.

ghost use Rattle.std.specs.Prelude.{◌≡◌, ◌++◌, IfErr, IfOk, IsOk, List, OnErr, OnOk, map, true};
ghost use Rattle.sessions.specs.AtOnce.{asked_at_once};
ghost use Rattle.sessions.specs.Events.{declare_text};
ghost use Rattle.sessions.specs.Reply as spec;
ghost use Rattle.sessions.specs.View.{reply_of};
ghost use Rattle.session.specs.Event as event;
ghost use Rattle.session.specs.Machine.{IsMachineStep, IsRun, IsStep, RunsAreTheMachines, first_core, takes_no_memory};
ghost use Rattle.session.specs.Taking.{Answers, TakesEvent};
ghost use Rattle.session.specs.View.{event_of};

use crate::asking::{Shared, answer_asked, describe_asked};
use crate::event::Event;
use crate::forgetting::{counts, forget_if_later};
use engine::{Seen, Store};
use memory::{Heap, Text};
use sessions::{Reply, Sessions, refused_by};
use shared_plans::Plans;
use std::alloc::{AllocError, AllocFailed};
use std::marker::Model;
use value::Refusal;

/// A store with the sessions that are open, and what they share: the 64 most recently used plans, each for a role's text since the
/// last change and load, and what is known of the rows that roles see since then.
#[derive(Drop)]
pub struct Core<A: Heap> {
    alloc: A,
    sessions: Sessions<A>,
    shared: Shared<A>,
}

impl<A: Heap> Model for Core<A> {
    ghost use Rattle.session.specs.Machine as machine;

    ghost Value = { machine.Core };

    ghost use Rattle.std.specs.Prelude.{ℕ};
    ghost use Rattle.std.specs.Coded.{codes, coded_ℕ};
    ghost use Rattle.sessions.specs.MovableExpr as movable_expr;

    ghost coded = { Prim.hlevel (codes, movable_expr.the_code ℕ coded_ℕ) };

    ghost use Rattle.shared_plans.specs.Recent.{recent_of};
    ghost use Rattle.engine.specs.SeenTables.{AreSeenIn};
    ghost use Rattle.session.specs.Kept.{AreKept};

    ghost view = { λ c. record { state = c.sessions; recent = recent_of c.shared.plans } };

    ghost invariant = { λ c. AreKept c.sessions.database c.sessions.loads c.shared.plans.entries × AreSeenIn c.sessions.database c.shared.seen };
}

impl<A: Heap> Core<A> {
    /// A store with no session. Where memory runs out, the store is given back.
    pub fn new(alloc: A, store: Store<A>) -> Result<Core<A>, AllocFailed<Store<A>>>
        ensures core { IfOk result (λ core. core ≡ first_core store) }
        ensures given_back { IfErr result (λ e. e.value ≡ store) }
    {
        match Plans::new(alloc) {
            Ok(plans) => Ok(Core {
                alloc,
                sessions: Sessions::new(alloc, store),
                shared: Shared {
                    plans,
                    seen: Seen::new(alloc),
                },
            }),
            Err(_) => Err(AllocFailed { value: store }),
        }
    }

    /// How many look-ups found a plan; the count stays at its greatest value, 2^64 - 1.
    pub fn hits(&self) -> u64
        ensures { result ≡ self.now.recent.hits }
    {
        self.shared.plans.hits()
    }

    // The reply to a text that a session asks.
    fn ask(&mut self, session: u64, text: &str) -> Result<Reply<A>, AllocError>
        ensures takes { TakesEvent self.old self.new (event.Ask session text.now) result }
        ensures at_once { takes_no_memory self.old.state (event.Ask session text.now) ≡ true → IsOk result }
    {
        let asked = self.sessions.ask_text(session, text);
        match answer_asked(self.alloc, &self.sessions, &mut self.shared, asked) {
            Ok(Ok(reply)) => Ok(Reply::Engine { reply }),
            Ok(Err(code)) => Ok(refused_by(code)),
            Err(error) => Err(error),
        }
    }

    // The name and the type of each column of a text that a session asks.
    fn describe(&self, session: u64, text: &str) -> Result<Reply<A>, AllocError>
        ensures takes { TakesEvent self.now self.now (event.Describe session text.now) result }
        ensures at_once { takes_no_memory self.now.state (event.Describe session text.now) ≡ true → IsOk result }
    {
        let asked = self.sessions.ask_text(session, text);
        match describe_asked(self.alloc, &self.sessions, asked) {
            Ok(Ok(reply)) => Ok(Reply::Engine { reply }),
            Ok(Err(code)) => Ok(refused_by(code)),
            Err(error) => Err(error),
        }
    }

    // The reply to a prepared text of a session.
    fn execute(&mut self, session: u64, name: &str) -> Result<Reply<A>, AllocError>
        ensures takes { TakesEvent self.old self.new (event.Execute session name.now) result }
        ensures at_once { takes_no_memory self.old.state (event.Execute session name.now) ≡ true → IsOk result }
    {
        let asked = self.sessions.execute_text(session, name);
        match answer_asked(self.alloc, &self.sessions, &mut self.shared, asked) {
            Ok(Ok(reply)) => Ok(Reply::Engine { reply }),
            Ok(Err(code)) => Ok(refused_by(code)),
            Err(error) => Err(error),
        }
    }

    // The reply to the text of a new cursor, or why it is not asked.
    fn answer_cursor(
        &mut self,
        session: u64,
        name: &str,
        text: &str,
    ) -> Result<Result<replies::Reply<A>, Refusal>, AllocError>
        ensures state { self.new.state ≡ self.old.state }
        ensures answers { Answers self.old.state (declare_text self.old.state session name.now text.now) self.old.recent self.new.recent result }
        ensures at_once { asked_at_once self.old.state (declare_text self.old.state session name.now text.now) ≡ true → IsOk result }
    {
        let asked = self.sessions.declare_text(session, name, text);
        answer_asked(self.alloc, &self.sessions, &mut self.shared, asked)
    }

    // A session keeps the rows of a text for a cursor.
    fn declare(&mut self, session: u64, name: Text<A>, text: &str) -> Result<Reply<A>, AllocError>
        ensures takes { TakesEvent self.old self.new (event.Declare session name text.now) result }
        ensures at_once { takes_no_memory self.old.state (event.Declare session name text.now) ≡ true → IsOk result }
    {
        match self.answer_cursor(session, name.as_str(), text) {
            Ok(Ok(reply)) => self.sessions.keep(session, name, reply),
            Ok(Err(code)) => Ok(refused_by(code)),
            Err(error) => Err(error),
        }
    }

    // A session applies a schema statement. Where it is accepted, what is known of the rows that roles see is forgotten.
    fn change(&mut self, session: u64, text: &str) -> Result<Reply<A>, AllocError>
        ensures takes { TakesEvent self.old self.new (event.Change session text.now) result }
        ensures at_once { takes_no_memory self.old.state (event.Change session text.now) ≡ true → IsOk result }
    {
        let before = counts(&self.sessions);
        let reply = self.sessions.change(session, text);
        forget_if_later(&self.sessions, before, &mut self.shared.seen);
        reply
    }

    // Adds the rows of comma-separated bytes to a table. Where they are accepted, the same is forgotten.
    fn load(&mut self, table: &str, bytes: &[u8]) -> Result<Reply<A>, AllocError>
        ensures takes { TakesEvent self.old self.new (event.Load table.now bytes.now) result }
        ensures at_once { takes_no_memory self.old.state (event.Load table.now bytes.now) ≡ true → IsOk result }
    {
        let before = counts(&self.sessions);
        let reply = self.sessions.load(table, bytes);
        forget_if_later(&self.sessions, before, &mut self.shared.seen);
        reply
    }

    // Takes an event; where memory runs out the state is as it was.
    fn take(&mut self, event: Event<A>) -> Result<Reply<A>, AllocError>
        ensures takes { TakesEvent self.old self.new (event_of event) result }
        ensures at_once { takes_no_memory self.old.state (event_of event) ≡ true → IsOk result }
    {
        match event {
            Event::Login { role } => self.sessions.login(role),
            Event::Logout { session } => Ok(self.sessions.logout(session)),
            Event::SetRole { session, role } => Ok(self.sessions.set_role(session, role)),
            Event::ResetRole { session } => Ok(self.sessions.reset_role(session)),
            Event::Ask { session, text } => self.ask(session, text.as_str()),
            Event::Describe { session, text } => self.describe(session, text.as_str()),
            Event::Prepare {
                session,
                name,
                text,
            } => self.sessions.prepare(session, name, text),
            Event::Execute { session, name } => self.execute(session, name.as_str()),
            Event::Declare {
                session,
                name,
                text,
            } => self.declare(session, name, text.as_str()),
            Event::Fetch {
                session,
                name,
                count,
            } => self.sessions.fetch(session, name.as_str(), count),
            Event::Close { session, name } => Ok(self.sessions.close(session, name.as_str())),
            Event::Change { session, text } => self.change(session, text.as_str()),
            Event::Load { table, bytes } => self.load(table.as_str(), bytes.as_slice()),
        }
    }

    /// Takes one event: the reply is that of the session machine, over the present catalogue and the present rows. Where memory
    /// runs out the reply is the refusal 53200, and the state is as it was; a plan may have been kept. A refused event changes
    /// nothing.
    pub fn step(&mut self, event: Event<A>) -> Reply<A>
        ensures step { IsStep self.old (event_of event) (reply_of result) self.new }
        // Memory runs out only where it is asked for.
        ensures exact { takes_no_memory self.old.state (event_of event) ≡ true → IsMachineStep self.old (event_of event) (reply_of result) self.new }
    {
        match self.take(event) {
            Ok(reply) => reply,
            Err(_) => refused_by(Refusal::OutOfMemory),
        }
    }

    /// Takes all of the events, in order, and adds their replies. It first makes room for the replies; where it cannot, no event
    /// is taken and the events are given back.
    pub fn play(
        &mut self,
        events: Vec<Event<A>, A>,
        replies: &mut Vec<Reply<A>, A>,
    ) -> Result<(), AllocFailed<Vec<Event<A>, A>>>
        ensures ok { OnOk result ((given : List spec.Reply)
            × (map (λ r. reply_of r) replies.new.items ≡ map (λ r. reply_of r) replies.old.items ++ given)
            × IsRun self.old (map (λ e. event_of e) events.items) given self.new) }
        ensures err { OnErr result ((self.new ≡ self.old) × (replies.new.items ≡ replies.old.items)) }
        ensures given_back { IfErr result (λ e. e.value ≡ events) }
    {
        match replies.reserve(events.len()) {
            Ok(()) => {}
            Err(_) => return Err(AllocFailed { value: events }),
        }
        for event in events {
            let reply = self.step(event);
            replies.push(reply).unwrap();
        }
        Ok(())
    }
}

/// Where memory does not run out, the replies to events are those of the session machine, which plans nothing, and the keys and the
/// hits those of the texts that were asked.
#[tactic(auto, using(crate::proofs::Runs::runs))]
pub fn law_runs_are_the_machines()
    ensures { RunsAreTheMachines }
{}
