//! Laws of the bytes of states. Each function does nothing: its contract is the law.
ghost use Rattle.replica_bytes.specs.Laws.{EqualStampsGoByBytes, ReadAsSpelled};

/// What is read is spelled so and has a spelling, and what is spelled so is read again, whatever
/// follows. So a state has one spelling.
pub fn read_as_spelled()
    ensures { ReadAsSpelled }
{}

/// What is kept of a topic under one stamp is ordered by its bytes, from the flag on.
pub fn equal_stamps_go_by_bytes()
    ensures { EqualStampsGoByBytes }
{}
