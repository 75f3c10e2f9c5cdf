//! What is told is compared with what is wanted in a function of its own, so that a proof of a test need not see how.
use std::fmt::Debug;
use std::process::Abort;

/// It fails where something else is told than what is wanted, of what stands at the place.
pub(crate) fn is<T: PartialEq + Debug + Copy>(
    rt: &impl Abort,
    what: &str,
    place: usize,
    told: T,
    wanted: T,
) {
    assert_eq!(rt; told, wanted, "{what}, {place}");
}
