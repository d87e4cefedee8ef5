//! Lists of events, drawn from a number, against a machine that plans each text anew and keeps the keys alone.

use crate::scripts::{event_of, sales_core, shown};
use descriptions::describe;
use engine::{Store, ask, refusal};
use fixtures::{FixtureError, sales};
use memory::{Failure, Text};
use session::Event;
use sessions::{Reply, Sessions, refused_by};
use std::alloc::{AllocError, Global};
use std::process::Abort;
use std::test::Fail;
use value::Refusal;

// The keys that were looked up, the most recently used first, and how many look-ups found one.
#[derive(Drop)]
struct Keys {
    keys: Vec<String>,
    hits: u64,
}

impl Keys {
    // The index of a key.
    fn find(&self, key: &str) -> Option<usize> {
        for (i, known) in self.keys.iter().enumerate() {
            if known.as_str() == key {
                return Some(i);
            }
        }
        None
    }

    fn look_up(&mut self, key: String) -> Result<(), AllocError> {
        match self.find(key.as_str()) {
            Some(i) => {
                self.hits = self.hits.saturating_add(1);
                if i < self.keys.len() {
                    drop(self.keys.remove(i));
                }
            }
            None => self.keys.truncate(63),
        }
        match self.keys.insert(0, key) {
            Ok(()) => Ok(()),
            Err(_) => Err(AllocError),
        }
    }
}

// The reply to a role's text, whose key is looked up where the text is neither refused nor denied.
fn answer(
    alloc: Global,
    store: &Store<Global>,
    loads: u64,
    keys: &mut Keys,
    asked: (&str, &str),
) -> Result<replies::Reply<Global>, AllocError> {
    let (role, text) = asked;
    if refusal(alloc, store.catalog(), role, text)?.is_none() {
        let changes = store.catalog().change_number();
        keys.look_up(format!(in alloc; "{role} {changes} {loads} {text}")?)?;
    }
    Ok(ask(alloc, store, role, text))
}

// The reply to what a session asks.
fn answer_asked(
    alloc: Global,
    sessions: &Sessions<Global>,
    keys: &mut Keys,
    asked: Result<(&str, &str), Refusal>,
) -> Result<Result<replies::Reply<Global>, Refusal>, AllocError> {
    match asked {
        Ok(asked) => Ok(Ok(answer(alloc, sessions.store(), sessions.loads(), keys, asked)?)),
        Err(code) => Ok(Err(code)),
    }
}

// The description of what a session asks.
fn describe_asked(
    alloc: Global,
    sessions: &Sessions<Global>,
    asked: Result<(&str, &str), Refusal>,
) -> Result<Result<replies::Reply<Global>, Refusal>, AllocError> {
    match asked {
        Ok((role, text)) => Ok(Ok(describe(alloc, sessions.store().catalog(), role, text)?)),
        Err(code) => Ok(Err(code)),
    }
}

fn reply_of(answer: Result<replies::Reply<Global>, Refusal>) -> Reply<Global> {
    match answer {
        Ok(reply) => Reply::Engine { reply },
        Err(code) => refused_by(code),
    }
}

// A session makes a cursor of the rows of a text.
fn declare(
    alloc: Global,
    sessions: &mut Sessions<Global>,
    keys: &mut Keys,
    session: u64,
    name: Text<Global>,
    text: &str,
) -> Result<Reply<Global>, AllocError> {
    let asked = sessions.declare_text(session, name.as_str(), text);
    match answer_asked(alloc, sessions, keys, asked)? {
        Ok(reply) => sessions.keep(session, name, reply),
        Err(code) => Ok(refused_by(code)),
    }
}

// Takes an event.
fn step(
    alloc: Global,
    sessions: &mut Sessions<Global>,
    keys: &mut Keys,
    event: Event<Global>,
) -> Result<Reply<Global>, AllocError> {
    match event {
        Event::Login { role } => sessions.login(role),
        Event::Logout { session } => Ok(sessions.logout(session)),
        Event::SetRole { session, role } => Ok(sessions.set_role(session, role)),
        Event::ResetRole { session } => Ok(sessions.reset_role(session)),
        Event::Ask { session, text } => {
            let asked = sessions.ask_text(session, text.as_str());
            Ok(reply_of(answer_asked(alloc, sessions, keys, asked)?))
        }
        Event::Describe { session, text } => {
            let asked = sessions.ask_text(session, text.as_str());
            Ok(reply_of(describe_asked(alloc, sessions, asked)?))
        }
        Event::Prepare {
            session,
            name,
            text,
        } => sessions.prepare(session, name, text),
        Event::Execute { session, name } => {
            let asked = sessions.execute_text(session, name.as_str());
            Ok(reply_of(answer_asked(alloc, sessions, keys, asked)?))
        }
        Event::Declare {
            session,
            name,
            text,
        } => declare(alloc, sessions, keys, session, name, text.as_str()),
        Event::Fetch {
            session,
            name,
            count,
        } => sessions.fetch(session, name.as_str(), count),
        Event::Close { session, name } => Ok(sessions.close(session, name.as_str())),
        Event::Change { session, text } => sessions.change(session, text.as_str()),
        Event::Load { table, bytes } => sessions.load(table.as_str(), bytes.as_slice()),
    }
}

// The lines that are drawn. Texts stand more than once, so that there are hits.
fn lines() -> [&'static str; 32] {
    [
        "login alice",
        "login bob",
        "login root",
        "login zed",
        "logout 1",
        "setrole 2 bob",
        "setrole 0 root",
        "resetrole 2",
        "ask 0 SELECT id FROM deal",
        "describe 0 SELECT id FROM deal",
        "ask 1 SELECT id FROM deal",
        "ask 2 SELECT id FROM deal",
        "ask 0 SELECT d.id, r.name FROM deal d, region r WHERE d.region = r.id",
        "ask 2 SELECT d.id, r.name FROM deal d, region r WHERE d.region = r.id",
        "ask 1 SELECT owner, sum(amount) AS total FROM deal GROUP BY owner",
        "ask 0 SELECT amount/parts FROM deal",
        "ask 0 SELECT nosuch FROM deal",
        "prepare 0 p SELECT id FROM deal",
        "prepare 2 q SELECT name FROM region ORDER BY name",
        "execute 0 p",
        "execute 0 p",
        "execute 2 q",
        "declare 0 c SELECT id FROM deal",
        "declare 2 d SELECT name FROM region ORDER BY name",
        "fetch 0 c 2",
        "close 0 c",
        "change 2 CREATE INDEX by_owner ON deal (owner)",
        "change 2 CREATE POLICY near ON deal AS RESTRICTIVE USING (region = 1)",
        "change 2 DROP POLICY near ON deal",
        "change 0 CREATE ROLE x",
        "load deal more",
        "load region wrong_region",
    ]
}

// The next number of a linear congruence (Knuth's multiplier).
fn next(seed: u64) -> u64 {
    seed.wrapping_mul(6_364_136_223_846_793_005)
        .wrapping_add(1_442_695_040_888_963_407)
}

// A line, by the high bits of a number.
fn line_at(rt: &impl Abort, seed: u64) -> &'static str {
    match lines().get((seed >> 59) as usize) {
        Some(line) => line,
        None => panic!(rt; "32 lines"),
    }
}

fn known_event(rt: &(impl Abort + AllocGlobal), line: &str) -> Result<Event<Global>, AllocError> {
    match event_of(rt.alloc(), line)? {
        Some(event) => Ok(event),
        None => panic!(rt; "{line}"),
    }
}

// Takes so many lines, drawn from a number: replies and hits are those of the machine without plans. It gives the hits.
fn run(
    rt: &(impl Abort + AllocGlobal),
    seed: u64,
    count: u64,
) -> Result<u64, Failure<FixtureError>> {
    let alloc = rt.alloc();
    let mut core = sales_core(alloc)?;
    let mut sessions = Sessions::new(alloc, Box::into_inner(sales(alloc)?));
    let mut keys = Keys {
        keys: Vec::new(alloc),
        hits: 0,
    };
    let mut drawn = seed;
    for _ in 0..count {
        drawn = next(drawn);
        let line = line_at(rt, drawn);
        let given = shown(alloc, core.step(known_event(rt, line)?))?;
        let reply = step(alloc, &mut sessions, &mut keys, known_event(rt, line)?)?;
        let due = shown(alloc, reply)?;
        assert_eq!(rt; given.as_str(), due.as_str(), "{seed}: {line}");
        assert_eq!(rt; core.hits(), keys.hits, "{seed}: {line}");
    }
    Ok(keys.hits)
}

#[test]
fn drawn_events_are_answered_as_without_plans(rt: HostRuntime) -> Result<(), Fail> {
    let mut hits = 0u64;
    for seed in 0..60u64 {
        hits = hits.saturating_add(run(&rt, seed, 200)?);
    }
    // Some texts were answered under plans that were kept.
    assert!(&rt; hits > 500, "{hits}");
    Ok(())
}
