//! Sets of dots that merge: a dot names a change by its node and its number there, and a context
//! is a set of them (Almeida, Shoker, Baquero, "Delta State Replicated Data Types", on causal
//! contexts). [Lattice] is the trait of values that merge (the same, on join-semilattices).
#![tactic(auto)]

mod bytes;
mod context;
mod difference;
mod dot;
mod inclusion;
mod insertion;
mod joining;
mod lattice;
pub mod laws;
mod placing;
mod ranges;
mod union;

pub use context::Context;
pub use dot::Dot;
pub use joining::Joining;
pub use lattice::Lattice;
pub use ranges::Range;
