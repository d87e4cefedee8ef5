//! The numbers of the command line.

/// The number that a word says, within bounds.
pub(crate) fn number_of(word: &str, least: u64, most: u64) -> Option<u64> {
    let number = word.parse::<u64>().ok()?;
    if least <= number && number <= most {
        Some(number)
    } else {
        None
    }
}
