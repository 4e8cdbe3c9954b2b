//! What calls are tried on, in hexadecimal, field by field.

use crate::fault::Fault;
use std::alloc::Global;

/// Message Expiry Interval 5 and User Property `n`, `v` (MQTT 5.0, 2.2.2.2).
pub const PROPERTIES: &str = "0c 02 00000005 26 0001 6e 0001 76";

/// CONNECT of `a` with Session Expiry Interval 10, and a will `x` to `t` with Will Delay Interval 5 (MQTT 5.0, 3.1).
pub const CONNECT: &str =
    "10 1f 0004 4d515454 05 0e 003c 05 11 0000000a 0001 61 05 18 00000005 0001 74 0001 78";

/// PUBLISH of `x` to `t` at QoS 1 with Message Expiry Interval 5 and User Property `n`, `v` (MQTT 5.0, 3.3).
pub const PUBLISH: &str = "32 13 0001 74 0007 0c 02 00000005 26 0001 6e 0001 76 78";

/// The message `on` to `t` with RETAIN and User Property `n`, `v`, by `a`, which expires at 6,000.
pub const MESSAGE: &str =
    "0001 74 00000002 6f6e 07 26 0001 6e 0001 76 00 01 0001 61 01 0000000000001770";

/// The dots (0, 1), (0, 2) and (1, 3).
pub const CONTEXT: &str =
    "00000002 0000 0000000000000001 0000000000000002 0001 0000000000000003 0000000000000003";

/// At node 2 `a` subscribed to `t` with options 1 and identifier 300 under version 3, then `t` was given a message.
pub const STORE: &str =
    "00000001 0002 0000000000000001 0000000000000002 00000001 0002 0000000000000001 0000000000000002 \
     00000001 0002 0000000000000001 0001 61 0001 74 01 0000012c 00000003 \
     00000001 0001 74 0000000000000001 0002 01 0001 74 00000002 6f6e 00 00 01 0001 61 00";

/// From node 0 to node 1, of a subscription of `b` to `t` with QoS 1, as (0, 1).
pub const DELTA: &str = "00000052 06 0000 0001 00000001 0000 0000000000000001 0000000000000001 \
     00000001 0000 0000000000000001 0000000000000001 \
     00000001 0000 0000000000000001 0001 62 0001 74 01 00000000 00000000 00000000";

/// From node 1 to node 0 under number 2, of `x` to `t` at QoS 1 by `a` with a deadline, for `b` in `$share/g/t`.
pub const FORWARD: &str =
    "00000036 04 0001 0000 0000000000000002 00 0001 0001 62 000a 2473686172652f672f74 \
     0001 74 00000001 78 00 01 00 0001 61 01 0000000000001770";

/// The bytes that are spelled so.
pub fn bytes_of(alloc: Global, spelling: &str) -> Result<Vec<u8>, Fault> {
    let mut bytes = Vec::new(alloc);
    for field in spelling.split(' ') {
        let Ok(field) = hex::decode(alloc, field) else {
            return Err(Fault::Other);
        };
        bytes.extend_from_slice(&field)?;
    }
    Ok(bytes)
}
