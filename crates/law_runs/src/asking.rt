//! What is told to a client that subscribes or unsubscribes.
ghost use Rattle.law_runs.specs.Asking.{SubackStaysTrue, UnsubackStaysTrue};

/// What SUBACK and UNSUBACK tell is done in their step before they go out, and stays done: each filter that is granted has its
/// Subscribe, each one whose subscription is ended has a Remove that covers exactly what stood of the client to it, and their node has
/// taken these in every later world, running or down; of one that is answered by No subscription existed nothing stood.
pub fn answered_stays_true()
    ensures granted { SubackStaysTrue }
    ensures ended { UnsubackStaysTrue }
{}
