//! A value that was found, compared with the wanted one.

use std::fmt::{Debug, Display};
use std::process::Abort;

/// The value that was found is the wanted one, in a row of a test.
pub fn same<T: PartialEq + Debug>(
    rt: &impl Abort,
    found: &T,
    want: &T,
    name: &str,
    place: &impl Display,
) {
    assert_eq!(rt; *found, *want, "{name}: {place}");
}
