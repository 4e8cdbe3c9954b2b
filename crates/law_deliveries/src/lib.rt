//! The rules of delivery of one client's session over every list of its events, in terms of what goes out and what comes in
//! (MQTT 5.0, 4.1 to 4.9). Each function does nothing: its contract is the law.
//! What a client's PUBLISH, PUBREL, SUBSCRIBE or UNSUBSCRIBE is answered over every list of a session's events, read off the packets
//! that went before (MQTT 5.0, 3.2.2.3.3, 3.3 and 4.3). Each function does nothing: its contract is the law.
#![tactic(auto)]

pub mod codes;
pub mod copies;
pub mod ends;
pub mod events;
pub mod identifiers;
pub mod publishes;
pub mod queue;
pub mod quota;
pub mod releases;
pub mod requests;
pub mod resends;
pub mod wills;
