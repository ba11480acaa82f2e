//! What is known of a module before its operations are judged.

use crate::calls::CallGraph;

/// What is known of a module before its operations are judged.
#[derive(Drop)]
pub struct Facts<'a> {
    /// The name that the next new operation gets; all others are below.
    pub next: u64,
    pub calls: CallGraph<'a>,
}
