//! How long a file may be.

/// The greatest length of a file that is read, a payload's or a script's.
pub const FILE_LIMIT: usize = 8_388_608;
