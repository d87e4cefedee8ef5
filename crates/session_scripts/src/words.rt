//! The words, numbers and texts of a line.

ghost use Rattle.std.specs.Prelude.{◌≡◌, option_map};
ghost use Rattle.plan_texts.specs.View.{pair_of};
ghost use Rattle.session_scripts.specs.Lines.{session_text, session_word, session_word_text, word_at, word_text};
ghost use Rattle.session_scripts.specs.View.{bytes_of, numbered_of, numbered_pair_of};

use plan_texts::cut;
use value::read_number;

/// The text, if it is one word.
pub fn word(text: &str) -> Option<&str>
    ensures { option_map bytes_of result ≡ word_at text.now }
{
    if text.is_empty() || cut(text).is_some() {
        None
    } else {
        Some(text)
    }
}

/// A word, and the bytes after it.
pub fn word_text(text: &str) -> Option<(&str, &str)>
    ensures { option_map pair_of result ≡ word_text text.now }
{
    let (name, rest) = cut(text)?;
    let name = word(name)?;
    Some((name, rest))
}

/// A session, and the bytes after it.
pub fn session_text(text: &str) -> Option<(u64, &str)>
    ensures { option_map numbered_of result ≡ session_text text.now }
{
    let (session, rest) = cut(text)?;
    let session = read_number(session)?;
    Some((session, rest))
}

/// A session and a word.
pub fn session_word(text: &str) -> Option<(u64, &str)>
    ensures { option_map numbered_of result ≡ session_word text.now }
{
    let (session, rest) = session_text(text)?;
    let name = word(rest)?;
    Some((session, name))
}

/// A session, a word, and the bytes after it.
pub fn session_word_text(text: &str) -> Option<(u64, (&str, &str))>
    ensures { option_map numbered_pair_of result ≡ session_word_text text.now }
{
    let (session, rest) = session_text(text)?;
    let named = word_text(rest)?;
    Some((session, named))
}
