//! What becomes of a Forward frame.
ghost use Rattle.law_steps.specs.Forwards.{ForwardsAreAnswered, ForwardsAreTaken};

/// A Forward frame that comes to a node that has started, for it and from another node: its message is taken where it is the next of its
/// lane, else nothing is; and one frame goes out, Got with the number of the last message that was taken. So it is in every step, and in
/// a run by how many messages of the lane the node had taken.
pub fn forwards_are_taken()
    ensures answered { ForwardsAreAnswered }
    ensures taken { ForwardsAreTaken }
{}
