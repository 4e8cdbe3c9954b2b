//! What the program is asked to do.

/// Limits on what clients send that a command line asks for, each from 1 to 1,000,000,000, or none.
#[derive(Clone, Copy, Debug, PartialEq, Eq)]
pub struct AskedLimits {
    /// How many megabytes the program may hold, of 1,000,000 bytes each.
    pub most_memory: Option<u32>,
    /// How many bytes a packet may have.
    pub longest_packet: Option<u32>,
    /// How many filters a SUBSCRIBE may have.
    pub most_filters: Option<u32>,
    /// How many levels a topic and a filter may have.
    pub most_levels: Option<u32>,
    /// How many user properties a PUBLISH may have.
    pub most_properties: Option<u32>,
    /// How many seconds a session may last that nobody is connected to.
    pub longest_expiry: Option<u32>,
    /// Whether the limits that aren't given are those for strangers.
    pub careful: bool,
}

/// Who may come, as a command line says.
#[derive(Debug, PartialEq, Eq, Drop)]
pub struct AskedUsers {
    /// The path of the file of users. None: anyone may come.
    pub users: Option<String>,
    /// The path of the file of permissions. None: who may come may do all.
    pub permissions: Option<String>,
    /// Whether clients without a user name are let in where there are users.
    pub anonymous: bool,
}

/// The node that a command line asks for, and how it is to be served.
#[derive(Debug, PartialEq, Eq, Drop)]
pub struct AskedService {
    /// The path of the configuration.
    pub configuration: String,
    /// The node's name in it.
    pub node: String,
    /// The path of the node's database.
    pub database: String,
    /// How many turns to make, from 1 to 1,000,000,000. None: until the program is stopped.
    pub turns: Option<u32>,
    /// How many clients may be connected at a time, from 1 to 1,000,000,000, or any number.
    pub most_clients: Option<u32>,
    /// Within how many seconds a client has to be accepted, from 1 to 1,000,000,000, or any number.
    pub connect_within: Option<u32>,
    /// Limits on what clients send.
    pub limits: AskedLimits,
    /// Who may come.
    pub users: AskedUsers,
    /// Whether clients of MQTT 3.1.1 and 3.1 are served too.
    pub mqtt3: bool,
    /// Whether a log is written to standard error.
    pub log: bool,
    /// Where its status is told, if anywhere.
    pub status: Option<String>,
    /// By which hosts its status may be asked for beside an IP address, `localhost` and its name, with commas between them, if by any.
    pub status_hosts: Option<String>,
    /// Where it waits for clients, if not at the address that the configuration tells.
    pub listen: Option<String>,
    /// Where it waits for other nodes, if not at the address of its bridge.
    pub bridge_listen: Option<String>,
    /// Whether links of other nodes are taken from any IP address, and not from those of the bridges in the configuration alone.
    pub from_anywhere: bool,
}

/// What a command line asks to drop from the rows of a node that is down.
#[derive(Debug, PartialEq, Eq, Drop)]
pub struct AskedDrop {
    /// The path of the configuration.
    pub configuration: String,
    /// The node's name in it.
    pub node: String,
    /// The path of the node's database.
    pub database: String,
    /// The client whose session is dropped, if one is.
    pub session: Option<String>,
    /// The client whose queue is dropped, if one is.
    pub queue: Option<String>,
    /// The node for which nothing is to wait, if there is one.
    pub lane: Option<String>,
}

/// What a command line asks for.
#[derive(Debug, PartialEq, Eq, Drop)]
pub enum Task {
    /// Play the script in a file.
    Play {
        /// The path of the script.
        script: String,
    },
    /// Play the script in a file, with clients' bytes and frames through sockets.
    Loopback {
        /// The path of the script.
        script: String,
    },
    /// Serve clients as a node.
    Serve(AskedService),
    /// Print the line of a user in a file of users, for the password on standard input.
    Password {
        /// The user name.
        name: String,
    },
    /// Tell what the rows of a node that is down hold.
    Check {
        /// The path of the configuration.
        configuration: String,
        /// The node's name in it.
        node: String,
        /// The path of the node's database.
        database: String,
    },
    /// Drop something from the rows of a node that is down.
    DropRows(AskedDrop),
    /// Print what HAProxy needs to send each client to its home.
    Balancer {
        /// The path of the configuration.
        configuration: String,
    },
}
