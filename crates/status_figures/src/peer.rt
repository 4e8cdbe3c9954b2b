//! Another node, as a node knows it.

ghost use Rattle.std.specs.Prelude.{◌≡◌, ◌==◌, ◌&&◌};
ghost use Rattle.status_figures.specs.Figures.{agrees, has_room, is_equal};

/// Another node of the cluster.
#[derive(Drop)]
pub struct Peer {
    /// Its name in the table of homes.
    pub name: String,
    pub number: u16,
    /// The address that its clients are told.
    pub address: String,
    /// The address of its bridge.
    pub bridge: String,
    /// Whether the node has a link to it.
    pub linked: bool,
    /// For how many milliseconds there has been a link to it; 0 where there is none.
    pub up: u64,
    /// For how many milliseconds there has been no link to it; 0 where there is one.
    pub away: u64,
    /// Whether it was heard since the node started.
    pub heard: bool,
    /// How many operations the node has taken that this one isn't known to have.
    pub lacking: u64,
    /// How many operations this one is known to have that the node hasn't taken.
    pub missing: u64,
    /// How many messages wait for it.
    pub waiting: u64,
    /// As many messages may wait for it.
    pub room: u64,
}

impl Peer {
    /// Whether it was heard, and it and the node are known to have taken the same operations.
    pub fn is_equal(&self) -> bool
        ensures { result ≡ is_equal self.now }
    {
        self.heard && self.lacking == 0 && self.missing == 0
    }

    /// Whether one more message for it can wait; else it is left out.
    pub fn has_room(&self) -> bool
        ensures { result ≡ has_room self.now }
    {
        self.waiting < self.room
    }

    /// Whether it is linked too, and has room.
    pub fn agrees(&self) -> bool
        ensures { result ≡ agrees self.now }
    {
        self.linked && self.is_equal() && self.has_room()
    }
}
