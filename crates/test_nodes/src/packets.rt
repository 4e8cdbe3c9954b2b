//! Packets of clients, and a frame of another node.

/// CONNECT of `a`, whose home of two nodes is node 1.
pub const CONNECT: &[u8] = b"\x10\x0e\x00\x04MQTT\x05\x02\x00\x3c\x00\x00\x01a";

/// CONNECT of `a` with Clean Start, whose session stays for 100 s.
pub const ANEW: &[u8] = b"\x10\x13\x00\x04MQTT\x05\x02\x00\x3c\x05\x11\x00\x00\x00\x64\x00\x01a";

/// CONNECT of `a` without Clean Start, whose session stays for 100 s.
pub const AGAIN: &[u8] = b"\x10\x13\x00\x04MQTT\x05\x00\x00\x3c\x05\x11\x00\x00\x00\x64\x00\x01a";

/// SUBSCRIBE to `t`, at most QoS 0.
pub const SUBSCRIBE: &[u8] = b"\x82\x07\x00\x01\x00\x00\x01t\x00";

/// PUBLISH of `on` to `t` with RETAIN.
pub const ON: &[u8] = b"\x31\x06\x00\x01t\x00on";

/// PUBLISH of `of` to `t` with RETAIN.
pub const OF: &[u8] = b"\x31\x06\x00\x01t\x00of";

/// From node 0 to node 1, of a subscription of `b` to `t` with QoS 1, as (0, 1).
pub const DELTA: &[u8] = b"\0\0\0\x52\x06\0\0\0\x01\
    \0\0\0\x01\0\0\0\0\0\0\0\0\0\x01\0\0\0\0\0\0\0\x01\
    \0\0\0\x01\0\0\0\0\0\0\0\0\0\x01\0\0\0\0\0\0\0\x01\
    \0\0\0\x01\0\0\0\0\0\0\0\0\0\x01\0\x01b\0\x01t\x01\0\0\0\0\0\0\0\0\0\0\0\0";
