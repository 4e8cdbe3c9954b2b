//! What holds of every stream of bytes and of every packet. Each function states a law and does nothing.

ghost use Rattle.mqtt_packets.specs.Laws.{WrittenSpells, WrittenShortest, OneFront, OneOfThree, NeverSpelled, AnyPieces, CutIsSpelled, NeverFaulty};

/// Of any bytes exactly one holds: a packet stands in front, they are faulty, or they begin a frame that
/// isn't whole.
pub fn one_of_three()
    ensures { OneOfThree }
{}

/// No continuation of faulty bytes begins with a packet.
pub fn never_spelled()
    ensures { NeverSpelled }
{}

/// No packet's spelling begins another's.
pub fn one_front()
    ensures { OneFront }
{}

/// The packets, rest and fault of a stream don't depend on how it was cut into pieces.
pub fn any_pieces()
    ensures { AnyPieces }
{}

/// What is written is a spelling.
pub fn written_spells()
    ensures { WrittenSpells }
{}

/// No spelling is shorter.
pub fn written_shortest()
    ensures { WrittenShortest }
{}

/// A stream that is cut is the spellings of its packets, one after the other, each within the limit, and then
/// the rest. With no fault the rest begins a packet that may be within the limit; with one it is faulty, or
/// announces a packet above the limit.
pub fn cut_is_spelled()
    ensures { CutIsSpelled }
{}

/// No bytes are faulty by want of memory, or too large without a limit.
pub fn never_faulty()
    ensures { NeverFaulty }
{}
