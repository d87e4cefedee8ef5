//! The lines of a session script.

ghost use Rattle.std.specs.Prelude.{◌≡◌, IfOk, option_map};
ghost use Rattle.session_scripts.specs.Lines.{line_at, load_at};
ghost use Rattle.session_scripts.specs.View.{line_of};

use crate::events::read_event;
use crate::words::{word, word_text};
use memory::{Heap, Text};
use plan_texts::cut;
use session::Event;
use std::alloc::AllocError;

/// A line of a script.
#[derive(Drop)]
pub enum ScriptLine<A: Heap> {
    /// An event other than a load.
    Event {
        /// The event.
        event: Event<A>,
    },
    /// A load of a file.
    Load {
        /// The table.
        table: Text<A>,
        /// The path of the file.
        path: Text<A>,
    },
}

// load TABLE PATH
fn load<A: Heap>(alloc: A, rest: &str) -> Result<Option<ScriptLine<A>>, AllocError>
    ensures { IfOk result (λ l. option_map line_of l ≡ load_at rest.now) }
{
    let Some((table, more)) = word_text(rest) else {
        return Ok(None);
    };
    let Some(path) = word(more) else {
        return Ok(None);
    };
    let table = Text::new(alloc, table)?;
    let path = Text::new(alloc, path)?;
    Ok(Some(ScriptLine::Load { table, path }))
}

/// The event of a line, which has no LF, or a load of a file; nothing where the line is no event.
pub fn read_line<A: Heap>(alloc: A, line: &str) -> Result<Option<ScriptLine<A>>, AllocError>
    ensures { IfOk result (λ l. option_map line_of l ≡ line_at line.now) }
{
    let Some((name, rest)) = cut(line) else {
        return Ok(None);
    };
    if name == "load" {
        return load(alloc, rest);
    }
    match read_event(alloc, name, rest)? {
        Some(event) => Ok(Some(ScriptLine::Event { event })),
        None => Ok(None),
    }
}
