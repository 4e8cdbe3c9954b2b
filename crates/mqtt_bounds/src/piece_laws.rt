//! What holds of every stream of bytes. Each function states a law and does nothing.

ghost use Rattle.mqtt_bounds.specs.PieceLaws.{AnyPieces, CutIsWhole};

/// The packets of a stream, what is left and how that begins don't depend on how it came in pieces.
pub fn any_pieces()
    ensures { AnyPieces }
{}

/// The packets and what is left are the stream. Each packet has the length that its Remaining Length says, which isn't above the limit.
pub fn cut_is_whole()
    ensures { CutIsWhole }
{}
