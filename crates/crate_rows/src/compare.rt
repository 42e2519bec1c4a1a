// Comparisons. A call is cheaper to prove than an assertion in its place.
use std::fmt::{Debug, Display};
use std::process::Abort;

/// Ends the test where the two differ.
pub(crate) fn same<T: PartialEq + Debug>(rt: &impl Abort, got: &T, want: &T) {
    assert_eq!(rt; got, want);
}

/// The same, at a place of a table.
pub(crate) fn same_at<T: PartialEq + Debug>(
    rt: &impl Abort,
    got: &T,
    want: &T,
    place: &impl Display,
) {
    assert_eq!(rt; got, want, "at {place}");
}

/// The same, of a mesh or a direction that has no other name.
pub(crate) fn same_of<T: PartialEq + Debug>(
    rt: &impl Abort,
    got: &T,
    want: &T,
    subject: &impl Debug,
) {
    assert_eq!(rt; got, want, "of {subject:?}");
}

/// The same of lists.
pub(crate) fn same_list<T: PartialEq + Debug>(rt: &impl Abort, got: &[T], want: &[T]) {
    assert_eq!(rt; got, want);
}
