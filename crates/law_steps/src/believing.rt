//! What becomes of a frame that says what its sender has taken.
ghost use Rattle.law_steps.specs.Knows.{HellosAreBelieved, HellosNameNodes, KnowsAreBelieved, KnowsNameNodes};

/// A Know frame that was released names none but nodes of the cluster. Once it comes to its receiver, another node than its sender, that
/// has started, and that goes on, that node believes of the sender that it has taken these dots, beside those that it believed it to have
/// taken before; of other nodes it believes what it did, and it counts no frame as bad.
pub fn knows_are_believed()
    ensures named { KnowsNameNodes }
    ensures believed { KnowsAreBelieved }
{}

/// So does a Hello, but that the node then believes of the sender that it has taken these dots and no others: what it believed before stood
/// for an earlier link.
pub fn hellos_are_believed()
    ensures named { HellosNameNodes }
    ensures believed { HellosAreBelieved }
{}
