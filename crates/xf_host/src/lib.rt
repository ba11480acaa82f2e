//! What a program reads files through and writes to: the traits, fakes in memory whose failures
//! are planned, and adapters over the files and streams of the system.
#![tactic(auto)]

mod counts;
pub mod files;
pub mod memory;
pub mod real;
pub mod sink;

use std::alloc::AllocError;

/// Memory was refused.
pub type NoMemory = AllocError;
