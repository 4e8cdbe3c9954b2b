//! Laws of bytes that are carried.
ghost use Rattle.script_loopback.specs.Honest.{CarriesWhatIsGiven};

use broker_sockets::Sockets;

/// Over streams that give out what was put in, in order, the bytes that come are those that were given.
pub fn what_comes_is_what_was_given<S: Sockets>()
    ensures { CarriesWhatIsGiven S.reads S.writes }
{}
