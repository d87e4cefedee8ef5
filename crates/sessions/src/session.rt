//! One session.

ghost use Rattle.std.specs.Prelude.{◌≡◌, IfOk, OnErr, OnOk, not, option_copied, option_map};
ghost use Rattle.std.specs.Str.{bytes_eq};
ghost use Rattle.std.specs.Map.{lookup, remove_entry};
ghost use Rattle.replies.specs.View.{reply_of};
ghost use Rattle.sessions.specs.State.{current_role, is_full, most_prepared, new_session};
ghost use Rattle.sessions.specs.Events.{cursor_refusal, with_cursor, with_prepared};
ghost use Rattle.sessions.specs.Taking.{Fetches};

use crate::cursor::Cursor;
use crate::entries::index_named;
use memory::{Heap, Text};
use replies::Reply;
use std::alloc::AllocError;
use std::marker::Model;
use value::Refusal;

/// The most prepared texts of a session.
pub const MOST_PREPARED: usize = 64;

/// The most cursors of a session.
pub const MOST_CURSORS: usize = 16;

/// The role that logged in, the role that was set, if one was, the prepared texts and the cursors.
#[derive(Drop)]
pub struct Session<A: Heap> {
    login_role: Text<A>,
    set_role: Option<Text<A>>,
    prepared: Vec<(Text<A>, Text<A>), A>,
    cursors: Vec<(Text<A>, Cursor<A>), A>,
}

impl<A: Heap> Model for Session<A> {
    ghost use Rattle.sessions.specs.State as spec;

    ghost Value = { spec.Session };

    ghost view = { λ s. record { login_role = s.login_role; set_role = s.set_role; prepared = s.prepared.items; cursors = s.cursors.items } };
}

impl<A: Heap> Session<A> {
    pub(crate) fn new(alloc: A, login_role: Text<A>) -> Session<A>
        ensures { result ≡ new_session login_role }
    {
        Session {
            login_role,
            set_role: None,
            prepared: Vec::new(alloc),
            cursors: Vec::new(alloc),
        }
    }

    pub(crate) fn login_role(&self) -> &str
        ensures { result.now ≡ self.now.login_role }
    {
        self.login_role.as_str()
    }

    /// The role that was set, or else the one that logged in.
    pub(crate) fn current_role(&self) -> &str
        ensures { result.now ≡ current_role self.now }
    {
        match &self.set_role {
            Some(role) => role.as_str(),
            None => self.login_role.as_str(),
        }
    }

    pub(crate) fn set_role(&mut self, role: Option<Text<A>>)
        ensures { self.new ≡ record self.old { set_role = role } }
    {
        self.set_role = role;
    }

    /// The prepared text of a name.
    pub(crate) fn prepared(&self, name: &str) -> Option<&str>
        ensures { option_map (λ t. t.now) result ≡ lookup (bytes_eq name.now) self.now.prepared }
    {
        match index_named(&self.prepared, name) {
            Some(i) => Some(self.prepared[i].1.as_str()),
            None => None,
        }
    }

    pub(crate) fn has_prepared_room(&self) -> bool
        ensures { is_full most_prepared self.now.prepared ≡ not result }
    {
        self.prepared.len() < MOST_PREPARED
    }

    pub(crate) fn add_prepared(&mut self, name: Text<A>, text: Text<A>) -> Result<(), AllocError>
        ensures ok { OnOk result (self.new ≡ with_prepared self.old name text) }
        ensures err { OnErr result (self.new ≡ self.old) }
    {
        self.prepared.push((name, text))?;
        Ok(())
    }

    /// The cursor of a name.
    pub(crate) fn cursor(&self, name: &str) -> Option<&Cursor<A>>
        ensures { option_copied result ≡ lookup (bytes_eq name.now) self.now.cursors }
    {
        match index_named(&self.cursors, name) {
            Some(i) => Some(&self.cursors[i].1),
            None => None,
        }
    }

    /// The refusal of a new cursor of a name: `DuplicateCursor` (42P03) where one is there, `ProgramLimitExceeded` (54000)
    /// where there are as many as may be.
    pub(crate) fn cursor_refusal(&self, name: &str) -> Option<Refusal>
        ensures { result ≡ cursor_refusal self.now name.now }
    {
        if self.cursor(name).is_some() {
            return Some(Refusal::DuplicateCursor);
        }
        if self.cursors.len() >= MOST_CURSORS {
            return Some(Refusal::ProgramLimitExceeded);
        }
        None
    }

    pub(crate) fn add_cursor(&mut self, name: Text<A>, cursor: Cursor<A>) -> Result<(), AllocError>
        ensures ok { OnOk result (self.new ≡ with_cursor self.old name cursor) }
        ensures err { OnErr result (self.new ≡ self.old) }
    {
        self.cursors.push((name, cursor))?;
        Ok(())
    }

    /// Takes out the cursor of a name.
    pub(crate) fn remove_cursor(&mut self, name: &str)
        ensures { self.new ≡ record self.old { cursors = remove_entry (bytes_eq name.now) self.old.cursors } }
    {
        if let Some(i) = index_named(&self.cursors, name) {
            drop(self.cursors.remove(i));
        }
    }

    /// The headings and the next rows of the cursor of a name, which is there.
    pub(crate) fn fetch(&mut self, alloc: A, name: &str, count: u64) -> Result<Reply<A>, AllocError>
        ensures ok { IfOk result (λ reply. Fetches self.old self.new name.now count (reply_of reply)) }
        ensures err { OnErr result (self.new ≡ self.old) }
    {
        match index_named(&self.cursors, name) {
            Some(i) => self.cursors[i].1.fetch(alloc, count),
            None => Err(AllocError),
        }
    }
}
