//! The lines of a plan's text.

ghost use Rattle.std.specs.Prelude.{◌≡◌, ◌∷◌, ◌+◌, ◌<◌, [], length, IfSome, IfNone};
ghost use Rattle.plan_texts.specs.Lines.{ends, quotes, lines_of};

/// A line without its LF, and the bytes after it.
#[derive(Clone, Copy)]
pub struct NextLine<'t> {
    /// The line.
    pub line: &'t [u8],
    /// The bytes after its LF.
    pub rest: &'t [u8],
}

// True for a byte that ends a line.
fn ends(byte: u8, quoted: bool) -> bool
    ensures { result ≡ ends byte quoted }
{
    byte == b'\n' && !quoted
}

// True where quotes are open after a byte.
fn quotes(byte: u8, quoted: bool) -> bool
    ensures { result ≡ quotes byte quoted }
{
    if byte == b'\'' { !quoted } else { quoted }
}

/// The first line of a text, which ends at the first LF that is not between quotes; none where no LF ends one.
pub fn next_line<'t>(text: &'t [u8]) -> Option<NextLine<'t>>
    ensures line { IfSome result (λ n. lines_of text.now ≡ (n.line.now ∷ (lines_of n.rest.now).0, (lines_of n.rest.now).1)) }
    ensures none { IfNone result (lines_of text.now ≡ ([], text.now)) }
    ensures shorter { IfSome result (λ n. length n.line.now + length n.rest.now < length text.now) }
{
    let mut quoted = false;
    for (index, byte) in text.iter().enumerate() {
        if ends(*byte, quoted) {
            return Some(NextLine {
                line: &text[..index],
                rest: &text[index + 1..],
            });
        }
        quoted = quotes(*byte, quoted);
    }
    None
}
