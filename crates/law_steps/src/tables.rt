//! What comes of a table of homes.
ghost use Rattle.law_steps.specs.Tables.{StartsSendAway, TablesAreTaken, TablesWait};
ghost use Rattle.law_steps.specs.Telling.{ClientsAreSentOn};

/// A table for as many nodes, and newer than the one that the node holds, is its table from then on, once what is due is done; and the
/// clients with sessions here go whose home is elsewhere by it, in the order of their bytes, and nobody else: each is told the address of
/// its home, and its connection is closed, where it is connected; its session ends whatever its expiry, its will is passed on, and one
/// Remove takes what stands of it under older versions. Another table is counted, and changes nothing; and so does any table before the
/// node has started, without a count. A node that begins its work sends clients away by the table that it holds, in the same way. It
/// speaks of each step of a node, whatever the node holds (MQTT 5.0, 3.1.2.5, 3.14.2.1 and 4.11).
pub fn tables_are_taken()
    ensures taken { TablesAreTaken }
    ensures waits { TablesWait }
    ensures starts { StartsSendAway }
{}

/// Wherever clients go, each that is on a connection is told on it the address of its home, unless that is longer than it takes, and its
/// connection is closed directly after that. Nothing of the node's own goes to anyone else, no frame goes out, and no other connection
/// changes (MQTT 5.0, 3.14.2.1 and 4.11).
pub fn clients_are_sent_on()
    ensures { ClientsAreSentOn }
{}
