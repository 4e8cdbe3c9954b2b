//! Packet Identifiers that are in use.
ghost use Rattle.law_causes.specs.InUse.{InUseIsRefused, InUseIsTold};

use law_deliveries::codes::codes_answer_what_asked;

/// A SUBSCRIBE or an UNSUBSCRIBE that comes under a Packet Identifier of which an exchange of the client is open, from its PUBLISH at
/// QoS 2 to its PUBREL, is answered by 0x91 for each filter, and nothing is done for it; under any other one the node is asked to do it.
/// And a SUBACK or an UNSUBACK with 0x91 among its codes answers such a packet alone, and has no other code (MQTT 5.0, 3.9.3 and 3.11.3).
pub fn in_use_is_exact()
    ensures refused { InUseIsRefused }
    ensures told { InUseIsTold }
{
    codes_answer_what_asked();
}
