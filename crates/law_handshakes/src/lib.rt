//! What holds of the handshakes with one client over every list of calls, from the making of its session on: over all
//! its connections, and where a crash lost one (MQTT 5.0, 4.3, 4.4, 4.6 and 4.9). Each function does nothing: its
//! contract is the law.
//! What the definitions of `qos_handshakes` say in MQTT's terms: which entries may be those of a session, and which copies go
//! when the next PUBLISH is asked for (MQTT 5.0, 4.3, 4.4, 4.6 and 4.9). Each function does nothing: its contract is the law.
#![tactic(auto)]

pub mod arrivals;
pub mod identifiers;
pub mod kept;
pub mod order;
pub mod outbox;
pub mod quota;
pub mod releases;
pub mod resends;
pub mod turns;
