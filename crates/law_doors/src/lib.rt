//! What a handler that stands before another one tells it, over any calls. Each function does nothing: its contract is the law.
#![tactic(auto)]

pub mod laws;
