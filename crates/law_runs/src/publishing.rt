//! What is told to a client that publishes.
ghost use Rattle.law_runs.specs.Calling.{CallsStay};
ghost use Rattle.law_runs.specs.Publishing.{PubackStaysTrue, PubrecStaysTrue};

/// PUBACK 0x00 goes out in the step that passes the message on. So does PUBREC 0x00, or its exchange is open, and the message of the
/// PUBLISH that opened it was passed on. The Put of a retained message is one of the operations of the step that passes it on, and its
/// node has taken it in every later world, running or down; and unless the message's deadline has passed, its copies join their
/// sessions in that step, and what other nodes are to get of it joins the lanes to them, or is left out where a lane is full.
pub fn acknowledged_stays_true()
    ensures once { PubackStaysTrue }
    ensures twice { PubrecStaysTrue }
{}

/// A call of a session in a step, as that by which a copy joins it, is one of the calls that made the session in every later world,
/// until the session is over: so what is proved of every run of a session tells what becomes of the copy.
pub fn calls_stay()
    ensures { CallsStay }
{}
