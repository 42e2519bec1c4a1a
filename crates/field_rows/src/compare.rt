// Comparisons. A call is cheaper to prove than an assertion in its place.
use std::fmt::Debug;
use std::process::Abort;

/// Ends the test where the two differ.
pub(crate) fn same<T: PartialEq + Debug>(rt: &impl Abort, got: &T, want: &T) {
    assert_eq!(rt; got, want);
}

/// The same of lists.
pub(crate) fn same_list<T: PartialEq + Debug>(rt: &impl Abort, got: &[T], want: &[T]) {
    assert_eq!(rt; got, want);
}
