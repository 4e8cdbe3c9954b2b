//! What comes of Started.
ghost use Rattle.law_steps.specs.Starting.{AllWaitForStart, StartsBegin, StartsComeOnce};

/// In each step, whatever the node holds: before Started an event takes its moment alone. Started begins the node's work; it closes the stored
/// sessions that were connected, does what is due, and sends away the clients whose home is elsewhere, and it does nothing else. A second one
/// takes its moment alone.
pub fn starts_begin()
    ensures waits { AllWaitForStart }
    ensures begins { StartsBegin }
    ensures once { StartsComeOnce }
{}
