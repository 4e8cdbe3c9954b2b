//! That each client that is connected is served.
ghost use Rattle.law_steps.specs.Served.{ConnectionsStayServed, PacketsOfRunsAreTaken};

/// In a run each open connection of a running node that has a client is the one that its client's session is on. So where bytes come on the connection
/// of a client, in a step of a node that has started, its session takes in order each packet that they make whole, until one ends the connection;
/// and then their fault is told (MQTT 5.0, 3.1.4 and 4.13).
pub fn clients_are_served()
    ensures sessions { ConnectionsStayServed }
    ensures packets { PacketsOfRunsAreTaken }
{}
