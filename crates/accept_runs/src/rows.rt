//! Rows of tables as lines, with ` | ` between two fields.

/// The first seven fields of a line; empty where there are fewer.
pub fn fields(line: &str) -> [&str; 7] {
    let (first, rest) = line.split_once(" | ").unwrap_or((line, ""));
    let (second, rest) = rest.split_once(" | ").unwrap_or((rest, ""));
    let (third, rest) = rest.split_once(" | ").unwrap_or((rest, ""));
    let (fourth, rest) = rest.split_once(" | ").unwrap_or((rest, ""));
    let (fifth, rest) = rest.split_once(" | ").unwrap_or((rest, ""));
    let (sixth, seventh) = rest.split_once(" | ").unwrap_or((rest, ""));
    [first, second, third, fourth, fifth, sixth, seventh]
}

/// An entry or a column as an index: its number in a text, which counts from 1.
pub fn index_of(text: &str) -> Option<usize> {
    text.parse::<usize>().ok()?.checked_sub(1)
}

/// True where a list of numbers has that of an index.
pub fn has_number(list: &str, index: usize) -> bool {
    list.split(' ').any(|word| index_of(word) == Some(index))
}
