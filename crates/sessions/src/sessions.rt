//! The sessions over a store.

ghost use Rattle.std.specs.Prelude.{◌≡◌, false, IfOk, IsOk, OnErr, OnOk, Some, nat_eq, option_copied, true};
ghost use Rattle.std.specs.Str.{bytes_eq};
ghost use Rattle.std.specs.Map.{remove_entry};
ghost use Rattle.replies.specs.View.{reply_of as engine_reply_of};
ghost use Rattle.sessions.specs.AtOnce.{change_at_once, fetch_at_once, load_at_once, login_at_once, prepare_at_once};
ghost use Rattle.sessions.specs.Events as spec;
ghost use Rattle.sessions.specs.Events.{may_become};
ghost use Rattle.sessions.specs.Reply.{has_rows};
ghost use Rattle.sessions.specs.State as State;
ghost use Rattle.sessions.specs.State.{at_start, has_login_room, session_numbered, with_session};
ghost use Rattle.sessions.specs.Taking.{FetchesIn, IsTaken, Takes, asked_of};
ghost use Rattle.sessions.specs.View.{reply_of};

use crate::changing::apply_text;
use crate::cursor::Cursor;
use crate::entries::index_numbered;
use crate::loading::{data_refusal, load_bytes};
use crate::parsing::check_query;
use crate::reply::{Reply, refused_by, refused_text};
use crate::session::Session;
use catalog::Catalog;
use memory::{Failure, Heap, Text};
use std::alloc::AllocError;
use std::marker::Model;
use store::{Store, StoreError};
use value::Refusal;

/// The most open sessions.
pub const MOST_SESSIONS: usize = 256;

/// A store and the open sessions by number. The numbers of sessions count from 0, and none is used again.
#[derive(Drop)]
pub struct Sessions<A: Heap> {
    alloc: A,
    store: Store<A>,
    sessions: Vec<(u64, Session<A>), A>,
    next_session: u64,
    loads: u64,
}

impl<A: Heap> Model for Sessions<A> {
    ghost use Rattle.sessions.specs.State as spec;

    ghost Value = { spec.State };

    ghost use Rattle.std.specs.Prelude.{ℕ};
    ghost use Rattle.std.specs.Coded.{codes, coded_ℕ};
    ghost use Rattle.store.specs.MovableExpr as movable_expr;

    ghost coded = { Prim.hlevel (codes, movable_expr.the_code ℕ coded_ℕ) };

    ghost view = { λ s. record { database = s.store; sessions = s.sessions.items; next_session = s.next_session; loads = s.loads } };
}

// True where a role may take another one.
fn may_become<A: Heap>(catalog: &Catalog<A>, login_role: &str, role: &str) -> bool
    ensures { result ≡ may_become catalog.now login_role.now role.now }
{
    catalog.is_superuser(login_role) || catalog.is_member(login_role, role)
}

impl<A: Heap> Sessions<A> {
    /// A store with no session.
    pub fn new(alloc: A, store: Store<A>) -> Sessions<A>
        ensures { result ≡ at_start store }
    {
        Sessions {
            alloc,
            store,
            sessions: Vec::new(alloc),
            next_session: 0,
            loads: 0,
        }
    }

    /// The store.
    pub fn store(&self) -> &Store<A>
        ensures { result.now ≡ self.now.database }
    {
        &self.store
    }

    /// The number of accepted loads.
    pub fn loads(&self) -> u64
        ensures { result ≡ self.now.loads }
    {
        self.loads
    }

    fn has_login_room(&self) -> bool
        ensures { result ≡ has_login_room self.now }
    {
        self.sessions.len() < MOST_SESSIONS && self.next_session < u64::MAX
    }

    // The session of a number.
    fn session(&self, number: u64) -> Option<&Session<A>>
        ensures { option_copied result ≡ session_numbered number self.now }
    {
        match index_numbered(&self.sessions, number) {
            Some(i) => Some(&self.sessions[i].1),
            None => None,
        }
    }

    // Takes out the session of a number.
    fn remove(&mut self, number: u64)
        ensures { self.new ≡ record self.old { sessions = remove_entry (nat_eq number) self.old.sessions } }
    {
        if let Some(i) = index_numbered(&self.sessions, number) {
            drop(self.sessions.remove(i));
        }
    }

    fn write_role(&mut self, number: u64, role: Option<Text<A>>)
        ensures { (x : State.Session) → session_numbered number self.old ≡ Some x → self.new ≡ with_session number (record x { set_role = role }) self.old }
    {
        if let Some(i) = index_numbered(&self.sessions, number) {
            self.sessions[i].1.set_role(role);
        }
    }

    fn write_prepared(
        &mut self,
        number: u64,
        name: Text<A>,
        text: Text<A>,
    ) -> Result<(), AllocError>
        ensures ok { OnOk result ((x : State.Session) → session_numbered number self.old ≡ Some x → self.new ≡ with_session number (spec.with_prepared x name text) self.old) }
        ensures err { OnErr result (self.new ≡ self.old) }
    {
        match index_numbered(&self.sessions, number) {
            Some(i) => self.sessions[i].1.add_prepared(name, text),
            None => Ok(()),
        }
    }

    fn write_cursor(
        &mut self,
        number: u64,
        name: Text<A>,
        cursor: Cursor<A>,
    ) -> Result<(), AllocError>
        ensures ok { OnOk result ((x : State.Session) → session_numbered number self.old ≡ Some x → self.new ≡ with_session number (spec.with_cursor x name cursor) self.old) }
        ensures err { OnErr result (self.new ≡ self.old) }
    {
        match index_numbered(&self.sessions, number) {
            Some(i) => self.sessions[i].1.add_cursor(name, cursor),
            None => Ok(()),
        }
    }

    fn remove_cursor(&mut self, number: u64, name: &str)
        ensures { (x : State.Session) → session_numbered number self.old ≡ Some x → self.new ≡ with_session number (record x { cursors = remove_entry (bytes_eq name.now) x.cursors }) self.old }
    {
        if let Some(i) = index_numbered(&self.sessions, number) {
            self.sessions[i].1.remove_cursor(name);
        }
    }

    fn fetch_rows(
        &mut self,
        number: u64,
        name: &str,
        count: u64,
    ) -> Result<replies::Reply<A>, AllocError>
        ensures ok { IfOk result (λ reply. FetchesIn self.old self.new number name.now count (engine_reply_of reply)) }
        ensures err { OnErr result (self.new ≡ self.old) }
    {
        match index_numbered(&self.sessions, number) {
            Some(i) => self.sessions[i].1.fetch(self.alloc, name, count),
            None => Err(AllocError),
        }
    }

    /// A role logs in; the reply is the number of the session. It is refused where there is no such role (42704), or where
    /// 256 sessions are open or numbers run out (54000); a refused login uses no number.
    pub fn login(&mut self, role: Text<A>) -> Result<Reply<A>, AllocError>
        ensures takes { Takes (spec.login self.old role) self.old self.new result }
        // A refused login takes no memory.
        ensures at_once { login_at_once self.old role ≡ true → IsOk result }
    {
        if !self.store.catalog().is_role(role.as_str()) {
            return Ok(refused_by(Refusal::UndefinedObject));
        }
        if !self.has_login_room() {
            return Ok(refused_by(Refusal::ProgramLimitExceeded));
        }
        let number = self.next_session;
        let session = Session::new(self.alloc, role);
        self.sessions.push((number, session))?;
        self.next_session = number + 1;
        Ok(Reply::Session { number })
    }

    /// A session ends, with its prepared texts and its cursors. It is refused where no such session is open (08003), as are
    /// all events of a session.
    pub fn logout(&mut self, session: u64) -> Reply<A>
        ensures { IsTaken (spec.logout self.old session) self.old self.new (reply_of result) }
    {
        match self.session(session) {
            Some(_) => {
                self.remove(session);
                Reply::Done
            }
            None => refused_by(Refusal::ConnectionDoesNotExist),
        }
    }

    /// A session takes another role. It is refused where there is no such role (42704), or where the role that logged in is
    /// no superuser and does not belong to it (42501).
    pub fn set_role(&mut self, session: u64, role: Text<A>) -> Reply<A>
        ensures { IsTaken (spec.set_role self.old session role) self.old self.new (reply_of result) }
    {
        let before = &*self;
        let Some(current) = before.session(session) else {
            return refused_by(Refusal::ConnectionDoesNotExist);
        };
        let catalog = before.store.catalog();
        if !catalog.is_role(role.as_str()) {
            return refused_by(Refusal::UndefinedObject);
        }
        if !may_become(catalog, current.login_role(), role.as_str()) {
            return refused_by(Refusal::InsufficientPrivilege);
        }
        self.write_role(session, Some(role));
        Reply::Done
    }

    /// A session takes back the role that logged in.
    pub fn reset_role(&mut self, session: u64) -> Reply<A>
        ensures { IsTaken (spec.reset_role self.old session) self.old self.new (reply_of result) }
    {
        match self.session(session) {
            Some(_) => {
                self.write_role(session, None);
                Reply::Done
            }
            None => refused_by(Refusal::ConnectionDoesNotExist),
        }
    }

    /// The current role of a session, and the text that it asks.
    pub fn ask_text<'a>(
        &'a self,
        session: u64,
        text: &'a str,
    ) -> Result<(&'a str, &'a str), Refusal>
        ensures { asked_of (λ t. t.now) result ≡ spec.ask_text self.now session text.now }
    {
        match self.session(session) {
            Some(session) => Ok((session.current_role(), text)),
            None => Err(Refusal::ConnectionDoesNotExist),
        }
    }

    /// A session prepares a text, whose names are resolved where it is executed. It is refused where the name is in use
    /// (42P05), where the text is no query, or where 64 texts are prepared (54000).
    pub fn prepare(
        &mut self,
        session: u64,
        name: Text<A>,
        text: Text<A>,
    ) -> Result<Reply<A>, AllocError>
        ensures takes { Takes (spec.prepare self.old session name text) self.old self.new result }
        ensures at_once { prepare_at_once self.old session name text ≡ true → IsOk result }
    {
        let Some(current) = self.session(session) else {
            return Ok(refused_by(Refusal::ConnectionDoesNotExist));
        };
        if current.prepared(name.as_str()).is_some() {
            return Ok(refused_by(Refusal::DuplicatePreparedStatement));
        }
        let has_room = current.has_prepared_room();
        match check_query(self.alloc, text.as_str()) {
            Ok(()) => {}
            Err(Failure::Error(error)) => return Ok(refused_text(error)),
            Err(Failure::OutOfMemory) => return Err(AllocError),
        }
        if !has_room {
            return Ok(refused_by(Refusal::ProgramLimitExceeded));
        }
        match self.write_prepared(session, name, text) {
            Ok(()) => Ok(Reply::Done),
            Err(error) => Err(error),
        }
    }

    /// The current role of a session, and its prepared text of a name. The error is `InvalidSqlStatementName` (26000) where
    /// there is none.
    pub fn execute_text(&self, session: u64, name: &str) -> Result<(&str, &str), Refusal>
        ensures { asked_of (λ t. t.now) result ≡ spec.execute_text self.now session name.now }
    {
        let Some(session) = self.session(session) else {
            return Err(Refusal::ConnectionDoesNotExist);
        };
        match session.prepared(name) {
            Some(text) => Ok((session.current_role(), text)),
            None => Err(Refusal::InvalidSqlStatementName),
        }
    }

    /// The current role of a session, and the text of its new cursor; the reply to it comes to `keep`. The error is
    /// `DuplicateCursor` (42P03) where the name is in use, `ProgramLimitExceeded` (54000) where there are 16 cursors.
    pub fn declare_text<'a>(
        &'a self,
        session: u64,
        name: &str,
        text: &'a str,
    ) -> Result<(&'a str, &'a str), Refusal>
        ensures { asked_of (λ t. t.now) result ≡ spec.declare_text self.now session name.now text.now }
    {
        let Some(session) = self.session(session) else {
            return Err(Refusal::ConnectionDoesNotExist);
        };
        match session.cursor_refusal(name) {
            Some(code) => Err(code),
            None => Ok((session.current_role(), text)),
        }
    }

    /// A session makes a cursor of the rows that a reply has; any other reply makes none. It is refused as `declare_text`
    /// is.
    pub fn keep(
        &mut self,
        session: u64,
        name: Text<A>,
        reply: replies::Reply<A>,
    ) -> Result<Reply<A>, AllocError>
        ensures takes { Takes (spec.keep self.old session name (engine_reply_of reply)) self.old self.new result }
        // Only rows take memory.
        ensures at_once { has_rows (engine_reply_of reply) ≡ false → IsOk result }
    {
        let Some(current) = self.session(session) else {
            return Ok(refused_by(Refusal::ConnectionDoesNotExist));
        };
        if let Some(code) = current.cursor_refusal(name.as_str()) {
            return Ok(refused_by(code));
        }
        match reply {
            replies::Reply::Rows { headings, rows } => {
                match self.write_cursor(session, name, Cursor::new(headings, rows)) {
                    Ok(()) => Ok(Reply::Done),
                    Err(error) => Err(error),
                }
            }
            other => Ok(Reply::Engine { reply: other }),
        }
    }

    /// The headings and the next rows of a cursor, at most so many. It is refused where there is no such cursor (34000).
    pub fn fetch(&mut self, session: u64, name: &str, count: u64) -> Result<Reply<A>, AllocError>
        ensures takes { Takes (spec.fetch self.old session name.now count) self.old self.new result }
        ensures at_once { fetch_at_once self.old session name.now ≡ true → IsOk result }
    {
        let Some(current) = self.session(session) else {
            return Ok(refused_by(Refusal::ConnectionDoesNotExist));
        };
        if current.cursor(name).is_none() {
            return Ok(refused_by(Refusal::InvalidCursorName));
        }
        match self.fetch_rows(session, name, count) {
            Ok(reply) => Ok(Reply::Engine { reply }),
            Err(error) => Err(error),
        }
    }

    /// A cursor is closed. It is refused where there is no such cursor (34000).
    pub fn close(&mut self, session: u64, name: &str) -> Reply<A>
        ensures { IsTaken (spec.close self.old session name.now) self.old self.new (reply_of result) }
    {
        let Some(current) = self.session(session) else {
            return refused_by(Refusal::ConnectionDoesNotExist);
        };
        if current.cursor(name).is_none() {
            return refused_by(Refusal::InvalidCursorName);
        }
        self.remove_cursor(session, name);
        Reply::Done
    }

    /// Applies a schema statement, by the current role of a session. It is refused by its length or its first syntax error,
    /// else by the first check of the statement that fails.
    pub fn change(&mut self, session: u64, text: &str) -> Result<Reply<A>, AllocError>
        ensures takes { Takes (spec.change self.old session text.now) self.old self.new result }
        ensures at_once { change_at_once self.old session text.now ≡ true → IsOk result }
    {
        let Some(i) = index_numbered(&self.sessions, session) else {
            return Ok(refused_by(Refusal::ConnectionDoesNotExist));
        };
        let role = self.sessions[i].1.current_role();
        apply_text(self.alloc, &mut self.store, role, text)
    }

    /// Adds the rows of comma-separated bytes to a table, or none. It is refused where numbers of loads run out (54000), where
    /// there is no such table (42P01), or by the first error of the rows.
    pub fn load(&mut self, table: &str, bytes: &[u8]) -> Result<Reply<A>, AllocError>
        ensures takes { Takes (spec.load self.old table.now bytes.now) self.old self.new result }
        ensures at_once { load_at_once self.old table.now ≡ true → IsOk result }
    {
        if self.loads == u64::MAX {
            return Ok(refused_by(Refusal::ProgramLimitExceeded));
        }
        if self.store.contents(table).is_none() {
            return Ok(refused_by(Refusal::UndefinedTable));
        }
        match load_bytes(self.alloc, &mut self.store, table, bytes) {
            Ok(()) => {
                self.loads += 1;
                Ok(Reply::Done)
            }
            Err(Failure::Error(StoreError::UndefinedTable)) => {
                Ok(refused_by(Refusal::UndefinedTable))
            }
            Err(Failure::Error(StoreError::Data(error))) => {
                data_refusal(self.alloc, &self.store, table, error)
            }
            Err(Failure::OutOfMemory) => Err(AllocError),
        }
    }
}
