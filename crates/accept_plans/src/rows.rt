//! Rows of tables as lines, with ` | ` between two fields.

use std::alloc::{AllocError, Global};

/// The first four fields of a line, and the rest of it; empty where there are fewer.
pub fn fields(line: &str) -> ([&str; 4], &str) {
    let (first, rest) = line.split_once(" | ").unwrap_or((line, ""));
    let (second, rest) = rest.split_once(" | ").unwrap_or((rest, ""));
    let (third, rest) = rest.split_once(" | ").unwrap_or((rest, ""));
    let (fourth, rest) = rest.split_once(" | ").unwrap_or((rest, ""));
    ([first, second, third, fourth], rest)
}

/// The bytes of a field, in which `;` stands for an LF and `~` for a byte that is no UTF-8.
pub fn bytes_of(alloc: Global, text: &str) -> Result<Vec<u8>, AllocError> {
    let mut bytes = Vec::new(alloc);
    for byte in text.as_bytes() {
        bytes.push(match *byte {
            b';' => b'\n',
            b'~' => 255,
            byte => byte,
        })?;
    }
    Ok(bytes)
}
