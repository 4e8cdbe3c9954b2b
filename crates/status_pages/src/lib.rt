//! What a node answers to a request for its status.
//! The status of a node as JSON (RFC 8259).
#![tactic(auto)]

mod answer;
mod codes;
mod figures;
mod hosts;
mod members;
mod pages;
mod peers;
mod resource;

pub use figures::json_of;
pub use pages::Pages;
pub use resource::Resource;
