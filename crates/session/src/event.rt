//! Events.

use memory::{Heap, Text};

/// An event. Roles, tables and names are taken byte by byte. An event of a session that is not open is refused (08003).
#[derive(Debug, Drop)]
pub enum Event<A: Heap> {
    /// A role logs in; the reply is the number of its session. It is refused where there is no such role (42704), or where 256
    /// sessions are open or numbers run out (54000).
    Login {
        /// The role.
        role: Text<A>,
    },
    /// A session ends, with its prepared texts and its cursors.
    Logout {
        /// The session.
        session: u64,
    },
    /// A session takes another role. It is refused where there is no such role (42704), or where the role that logged in is no
    /// superuser and does not belong to it (42501).
    SetRole {
        /// The session.
        session: u64,
        /// The role.
        role: Text<A>,
    },
    /// A session takes back the role that logged in.
    ResetRole {
        /// The session.
        session: u64,
    },
    /// A session asks a text, by its current role.
    Ask {
        /// The session.
        session: u64,
        /// The query.
        text: Text<A>,
    },
    /// A session asks for the name and the type of each column of a text's answer, by its current role; no row is read.
    Describe {
        /// The session.
        session: u64,
        /// The query.
        text: Text<A>,
    },
    /// A session prepares a text, whose names are resolved where it is executed. It is refused where the name is in use (42P05),
    /// where the text is no query, or where 64 texts are prepared (54000).
    Prepare {
        /// The session.
        session: u64,
        /// The name of the prepared text.
        name: Text<A>,
        /// The query.
        text: Text<A>,
    },
    /// A session asks a prepared text, by its current role. It is refused where there is none of the name (26000).
    Execute {
        /// The session.
        session: u64,
        /// The name of the prepared text.
        name: Text<A>,
    },
    /// A session asks a text, by its current role, and keeps its rows for a cursor. It is refused where the name is in use (42P03),
    /// or where there are 16 cursors (54000); a reply without rows makes none.
    Declare {
        /// The session.
        session: u64,
        /// The name of the cursor.
        name: Text<A>,
        /// The query.
        text: Text<A>,
    },
    /// A session takes the next rows of a cursor, at most so many. It is refused where there is none of the name (34000).
    Fetch {
        /// The session.
        session: u64,
        /// The name of the cursor.
        name: Text<A>,
        /// The most rows.
        count: u64,
    },
    /// A session closes a cursor. It is refused where there is none of the name (34000).
    Close {
        /// The session.
        session: u64,
        /// The name of the cursor.
        name: Text<A>,
    },
    /// A session applies a schema statement, by its current role. It is refused as the text or the statement is.
    Change {
        /// The session.
        session: u64,
        /// The statement.
        text: Text<A>,
    },
    /// The rows of comma-separated bytes are added to a table, or none of them. It belongs to no session. It is refused where
    /// numbers of loads run out (54000), where there is no such table (42P01), or by the first error of the rows.
    Load {
        /// The table.
        table: Text<A>,
        /// The bytes.
        bytes: Vec<u8, A>,
    },
}
