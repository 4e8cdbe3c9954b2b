//! The law of what sends each client to its home.
ghost use Rattle.cli_reports.specs.Sent.{ClientsAreSentHome};

/// By the lines of a balancer's text an identifier of at most 256 bytes is sent to its home, and to no other node.
pub fn clients_are_sent_home()
    ensures { ClientsAreSentHome }
{}
