//! Lengths that are refused.
ghost use Rattle.mqtt_bounds.specs.Lengths.{LongLengthsAreRefused, PaddedLengthsAreRefused};

/// A Remaining Length of five bytes or more is malformed, as soon as four of its bytes have come, and so is one that could be shorter:
/// nothing of the packet is read, whatever its first byte is, whatever follows, and however long a packet may be.
pub fn long_lengths_are_refused()
    ensures long { LongLengthsAreRefused }
    ensures padded { PaddedLengthsAreRefused }
{}
