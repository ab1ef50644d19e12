//! The one way out of a test.

use std::process::Abort;

/// Ends a test where this does not hold, with the name of the case. A caller has no way out of its own, so it is
/// proved as one path.
pub(crate) fn holds(rt: &impl Abort, case: &str, it: bool) {
    if !it {
        rt.panic(case)
    }
}
