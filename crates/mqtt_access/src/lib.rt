//! What clients may do: which topics they may write and read, which filters they may subscribe to, under which identifiers they may connect.
//! Hashes of passwords: HMAC (RFC 2104) and PBKDF2 (RFC 8018) with SHA-512, and a comparison that takes as long wherever bytes differ.
#![tactic(auto)]

mod compare;
mod comparing;
mod filled;
mod hmac;
mod index;
mod laws;
mod named;
mod own;
mod patterns;
mod pbkdf2;
mod permissions;
mod probing;
mod rule;

pub use comparing::same_bytes;
pub use hmac::{HmacKey, hmac_sha512};
pub use index::RuleIndex;
pub use laws::{
    covers_all_matched, filters_match_alike, meets_some_matched, subscribers_may_read,
    topics_are_matched,
};
pub use pbkdf2::pbkdf2_hmac_sha512;
pub use permissions::Permissions;
pub use rule::{Access, ClientRule, Request, Scope, TopicRule};
