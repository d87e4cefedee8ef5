//! The events of lines other than loads.

ghost use Rattle.std.specs.Prelude.{◌≡◌, IfOk, option_map};
ghost use Rattle.session.specs.View.{event_of};
ghost use Rattle.session_scripts.specs.Lines.{ask_at, change_at, close_at, declare_at, describe_at, event_at, execute_at, fetch_at, login_at, logout_at, prepare_at, reset_role_at, set_role_at};

use crate::words::{session_text, session_word, session_word_text, word};
use memory::{Heap, Text};
use session::Event;
use std::alloc::AllocError;
use value::read_number;

// login ROLE
fn login<A: Heap>(alloc: A, rest: &str) -> Result<Option<Event<A>>, AllocError>
    ensures { IfOk result (λ e. option_map event_of e ≡ login_at rest.now) }
{
    let Some(role) = word(rest) else {
        return Ok(None);
    };
    let role = Text::new(alloc, role)?;
    Ok(Some(Event::Login { role }))
}

// logout S
fn logout<A: Heap>(rest: &str) -> Option<Event<A>>
    ensures { option_map event_of result ≡ logout_at rest.now }
{
    Some(Event::Logout {
        session: read_number(rest)?,
    })
}

// setrole S ROLE
fn set_role<A: Heap>(alloc: A, rest: &str) -> Result<Option<Event<A>>, AllocError>
    ensures { IfOk result (λ e. option_map event_of e ≡ set_role_at rest.now) }
{
    let Some((session, role)) = session_word(rest) else {
        return Ok(None);
    };
    let role = Text::new(alloc, role)?;
    Ok(Some(Event::SetRole { session, role }))
}

// resetrole S
fn reset_role<A: Heap>(rest: &str) -> Option<Event<A>>
    ensures { option_map event_of result ≡ reset_role_at rest.now }
{
    Some(Event::ResetRole {
        session: read_number(rest)?,
    })
}

// ask S TEXT
fn ask<A: Heap>(alloc: A, rest: &str) -> Result<Option<Event<A>>, AllocError>
    ensures { IfOk result (λ e. option_map event_of e ≡ ask_at rest.now) }
{
    let Some((session, text)) = session_text(rest) else {
        return Ok(None);
    };
    let text = Text::new(alloc, text)?;
    Ok(Some(Event::Ask { session, text }))
}

// describe S TEXT
fn describe<A: Heap>(alloc: A, rest: &str) -> Result<Option<Event<A>>, AllocError>
    ensures { IfOk result (λ e. option_map event_of e ≡ describe_at rest.now) }
{
    let Some((session, text)) = session_text(rest) else {
        return Ok(None);
    };
    let text = Text::new(alloc, text)?;
    Ok(Some(Event::Describe { session, text }))
}

// prepare S NAME TEXT
fn prepare<A: Heap>(alloc: A, rest: &str) -> Result<Option<Event<A>>, AllocError>
    ensures { IfOk result (λ e. option_map event_of e ≡ prepare_at rest.now) }
{
    let Some((session, (name, text))) = session_word_text(rest) else {
        return Ok(None);
    };
    let name = Text::new(alloc, name)?;
    let text = Text::new(alloc, text)?;
    Ok(Some(Event::Prepare {
        session,
        name,
        text,
    }))
}

// execute S NAME
fn execute<A: Heap>(alloc: A, rest: &str) -> Result<Option<Event<A>>, AllocError>
    ensures { IfOk result (λ e. option_map event_of e ≡ execute_at rest.now) }
{
    let Some((session, name)) = session_word(rest) else {
        return Ok(None);
    };
    let name = Text::new(alloc, name)?;
    Ok(Some(Event::Execute { session, name }))
}

// declare S NAME TEXT
fn declare<A: Heap>(alloc: A, rest: &str) -> Result<Option<Event<A>>, AllocError>
    ensures { IfOk result (λ e. option_map event_of e ≡ declare_at rest.now) }
{
    let Some((session, (name, text))) = session_word_text(rest) else {
        return Ok(None);
    };
    let name = Text::new(alloc, name)?;
    let text = Text::new(alloc, text)?;
    Ok(Some(Event::Declare {
        session,
        name,
        text,
    }))
}

// fetch S NAME N
fn fetch<A: Heap>(alloc: A, rest: &str) -> Result<Option<Event<A>>, AllocError>
    ensures { IfOk result (λ e. option_map event_of e ≡ fetch_at rest.now) }
{
    let Some((session, (name, count))) = session_word_text(rest) else {
        return Ok(None);
    };
    let Some(count) = read_number(count) else {
        return Ok(None);
    };
    let name = Text::new(alloc, name)?;
    Ok(Some(Event::Fetch {
        session,
        name,
        count,
    }))
}

// close S NAME
fn close<A: Heap>(alloc: A, rest: &str) -> Result<Option<Event<A>>, AllocError>
    ensures { IfOk result (λ e. option_map event_of e ≡ close_at rest.now) }
{
    let Some((session, name)) = session_word(rest) else {
        return Ok(None);
    };
    let name = Text::new(alloc, name)?;
    Ok(Some(Event::Close { session, name }))
}

// change S TEXT
fn change<A: Heap>(alloc: A, rest: &str) -> Result<Option<Event<A>>, AllocError>
    ensures { IfOk result (λ e. option_map event_of e ≡ change_at rest.now) }
{
    let Some((session, text)) = session_text(rest) else {
        return Ok(None);
    };
    let text = Text::new(alloc, text)?;
    Ok(Some(Event::Change { session, text }))
}

/// The event of a line other than a load, by its first word and the bytes after the space.
pub fn read_event<A: Heap>(alloc: A, name: &str, rest: &str) -> Result<Option<Event<A>>, AllocError>
    ensures { IfOk result (λ e. option_map event_of e ≡ event_at name.now rest.now) }
{
    if name == "login" {
        login(alloc, rest)
    } else if name == "logout" {
        Ok(logout(rest))
    } else if name == "setrole" {
        set_role(alloc, rest)
    } else if name == "resetrole" {
        Ok(reset_role(rest))
    } else if name == "ask" {
        ask(alloc, rest)
    } else if name == "describe" {
        describe(alloc, rest)
    } else if name == "prepare" {
        prepare(alloc, rest)
    } else if name == "execute" {
        execute(alloc, rest)
    } else if name == "declare" {
        declare(alloc, rest)
    } else if name == "fetch" {
        fetch(alloc, rest)
    } else if name == "close" {
        close(alloc, rest)
    } else if name == "change" {
        change(alloc, rest)
    } else {
        Ok(None)
    }
}
