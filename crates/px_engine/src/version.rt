// The version.

/// The version of the program and of the library. The other files that name it are checked against this one.
pub const VERSION: &str = "1.0.0";
