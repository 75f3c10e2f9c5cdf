//! The version.

/// The version of the program, which is the library's.
pub const VERSION: &str = "0.8.0";
