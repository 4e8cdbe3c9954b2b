//! What becomes of the bytes that come on a connection.
ghost use Rattle.law_steps.specs.Bare.{FirstPacketsAreTaken};
ghost use Rattle.law_steps.specs.Taking.{PacketsAreTaken};

/// In each step of a node that has started, whatever it holds, in which bytes come on an open connection whose client has its session on it: what
/// is due comes first. Where the connection is as before then, its session takes in order each packet that these bytes make whole with those that
/// waited, until one ends the connection, after which nothing is done; and then a fault of the bytes is told by DISCONNECT with its code, and a
/// close goes out directly after. No other session takes a packet in that step, and this one takes no other.
pub fn packets_are_taken()
    ensures { PacketsAreTaken }
{}

/// In each such step in which bytes come on an open connection without a client: what is due comes first. A first packet that is no CONNECT closes
/// the connection. After a CONNECT it is closed, or has its client, whose session takes the packets after it in the same way. A fault before any
/// packet is told by CONNACK with its code where it begins as a CONNECT, and else by nothing, and a close goes out directly after.
pub fn first_packets_are_taken()
    ensures { FirstPacketsAreTaken }
{}
