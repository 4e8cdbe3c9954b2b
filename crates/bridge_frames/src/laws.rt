//! Laws of the bytes of frames. Each function does nothing: its contract is the law.
ghost use Rattle.bridge_frames.specs.Laws.{ReadAreSpellings, SpellOne, SpellingsAreRead};

/// What is spelled is read again, what is read is spelled so, and no bytes are the spelling of two frames.
pub fn frames_are_read()
    ensures again { SpellingsAreRead }
    ensures spelled { ReadAreSpellings }
    ensures one { SpellOne }
{}
