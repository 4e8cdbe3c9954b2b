//! Laws of what is done for packets.
ghost use Rattle.door_packets.specs.Laws.{AliasesAreFollowed, CodesInOrder};
ghost use Rattle.door_packets.specs.StreamLaws.{AllGoOn};

/// A SUBACK has a code for each filter, in the order asked: 0x87 for those that may not be subscribed to, and what the handler inside gave for the others.
pub fn codes_are_in_order()
    ensures { CodesInOrder }
{}

/// A PUBLISH that names its topic by an alias alone is allowed just where the topic may be written to which the client gave the alias last.
pub fn aliases_are_followed()
    ensures { AliasesAreFollowed }
{}

/// Packets that a client may send are told as they came and in their order, and nothing is answered in their place.
pub fn all_go_on()
    ensures { AllGoOn }
{}
