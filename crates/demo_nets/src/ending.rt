//! The last line of an example.

/// What is said at the end of an example.
pub fn ending(agrees: bool) -> &'static str {
    if agrees {
        "as by hand"
    } else {
        "NOT AS BY HAND"
    }
}
