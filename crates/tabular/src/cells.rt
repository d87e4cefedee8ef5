//! The cells of a table that is shown in a terminal.

ghost use Rattle.std.specs.Prelude.{◌≡◌, ◌++◌, ◌<◌, IfOk, OnOk, encode_utf8_all, string_bytes};
ghost use Rattle.tabular.specs.Cells as spec;
ghost use Rattle.tabular.specs.Cells.{cell_width, code, escape, hex_digits, is_control, shown_char};

use memory::{Heap, Text};
use std::alloc::AllocError;
use unicode_width::UnicodeWidthStr;

/// The columns of a terminal that a text without control characters takes.
pub(crate) fn cell_width(cell: &str) -> usize
    ensures { result ≡ cell_width cell.now }
{
    cell.width()
}

fn is_control(c: char) -> bool
    ensures { result ≡ is_control c }
{
    c < ' ' || (c > '~' && c < '\u{a0}')
}

fn hex_digit(n: u8) -> u8
    requires { n < 16 }
    ensures { result ≡ spec.hex_digit n }
{
    if n < 10 { b'0' + n } else { b'7' + n }
}

fn push_hex<A: Heap>(out: &mut String<A>, c: u8) -> Result<(), AllocError>
    ensures { OnOk result (string_bytes out.new ≡ string_bytes out.old ++ encode_utf8_all (hex_digits c)) }
{
    out.push(hex_digit(c / 16) as char)?;
    out.push(hex_digit(c % 16) as char)
}

// Adds a control character that has no letter.
fn push_code<A: Heap>(out: &mut String<A>, c: char) -> Result<(), AllocError>
    requires { c < 256 }
    ensures { OnOk result (string_bytes out.new ≡ string_bytes out.old ++ encode_utf8_all (code c)) }
{
    if c < '\u{80}' {
        out.push_str("\\x")?;
        return push_hex(out, c as u32 as u8);
    }
    out.push_str("\\u00")?;
    push_hex(out, c as u32 as u8)
}

fn push_escape<A: Heap>(out: &mut String<A>, c: char) -> Result<(), AllocError>
    requires { c < 256 }
    ensures { OnOk result (string_bytes out.new ≡ string_bytes out.old ++ encode_utf8_all (escape c)) }
{
    match c {
        '\n' => out.push_str("\\n"),
        '\r' => out.push_str("\\r"),
        '\t' => out.push_str("\\t"),
        _ => push_code(out, c),
    }
}

fn push_shown<A: Heap>(out: &mut String<A>, c: char) -> Result<(), AllocError>
    ensures { OnOk result (string_bytes out.new ≡ string_bytes out.old ++ encode_utf8_all (shown_char c)) }
{
    if is_control(c) {
        push_escape(out, c)
    } else {
        out.push(c)
    }
}

/// A text in one line, its control characters escaped as `\n`, `\r`, `\t`, `\x1B` or `\u009B`.
pub fn shown<A: Heap>(alloc: A, text: &str) -> Result<Text<A>, AllocError>
    ensures { IfOk result (λ cell. cell ≡ spec.shown text.now) }
{
    let mut out = String::new(alloc);
    for c in text.chars() {
        push_shown(&mut out, c)?;
    }
    Ok(Text::from(out))
}
