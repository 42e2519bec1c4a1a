// What is had is what is wanted. A call is cheaper to prove than an assertion in its place, which
// prints both.
use std::fmt::{Debug, Display};
use std::process::Abort;

// Ends the test where the two differ.
pub(crate) fn same<T: PartialEq + Debug>(rt: &impl Abort, got: &T, want: &T) {
    assert_eq!(rt; got, want);
}

// The same, at a place of a table.
pub(crate) fn same_at<T: PartialEq + Debug>(
    rt: &impl Abort,
    got: &T,
    want: &T,
    place: &impl Display,
) {
    assert_eq!(rt; got, want, "at {place}");
}
