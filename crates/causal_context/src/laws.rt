//! Laws of contexts. Each function does nothing: its contract is the law.
ghost use Rattle.causal_context.specs.Ranges.{SpelledOnce};
ghost use Rattle.causal_context.specs.Spelling.{HasOneSpelling, context};
ghost use Rattle.mqtt_fields.specs.Field.{IsField, IsSteady};

/// Two sound lists of ranges that stand for one set are one list.
pub fn spelled_once()
    ensures { SpelledOnce }
{}

/// A set of dots has one spelling in bytes.
pub fn one_spelling()
    ensures { HasOneSpelling }
{}

/// What is read is the set's spelling, and what is spelled is read again, whatever follows.
pub fn read_as_spelled()
    ensures { IsField context }
{}

/// A set or a fault that is read stays so, whatever follows: the first fault from the left is found.
pub fn read_from_the_left()
    ensures { IsSteady context }
{}
