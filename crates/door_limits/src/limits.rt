//! What is asked of clients.

ghost use Rattle.std.specs.Prelude.{◌≡◌, ◌*◌, None, option_map};
ghost use Rattle.door_limits.specs.Limits.{are_none, has_room};

/// How many clients may be connected, and how long one may take until something is sent to it.
#[derive(Clone, Copy, Debug, PartialEq, Eq)]
pub struct Limits {
    /// The most connections of clients that are open at a time, or any number.
    pub most: Option<u64>,
    /// The most milliseconds from the opening of a connection to the first bytes that are sent on it, or any number.
    pub within: Option<u64>,
}

impl Limits {
    /// So many clients, each of which has so many seconds.
    pub fn new(clients: Option<u32>, seconds: Option<u32>) -> Limits
        ensures most { result.most ≡ clients }
        ensures within { result.within ≡ option_map (λ n. n * 1000) seconds }
    {
        Limits {
            most: clients.map(u64::from),
            within: seconds.map(|n| u64::from(n) * 1000),
        }
    }

    /// Any number of clients, for which nothing need be sent.
    pub fn none() -> Limits
        ensures { result ≡ record { most = None; within = None } }
    {
        Limits {
            most: None,
            within: None,
        }
    }

    /// Whether nothing is asked.
    pub fn are_none(&self) -> bool
        ensures { result ≡ are_none self.now }
    {
        self.most.is_none() && self.within.is_none()
    }

    /// Whether one more connection may be open beside so many.
    pub fn have_room(&self, count: usize) -> bool
        ensures { result ≡ has_room self.now.most count }
    {
        match self.most {
            Some(most) => (count as u64) < most,
            None => true,
        }
    }
}
