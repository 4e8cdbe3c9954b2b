//! What stands behind links between nodes.

use broker_sockets::{
    BridgeHandler, Event, Given, Handler, Output, PeerEvent, PeerEventKind, PeerFrame,
};
use std::alloc::Global;

/// Says something on each link that is begun, and so often something more where it is asked for all, or for more than that; keeps the frames that
/// it hears, each with `/` behind it.
pub struct Talker {
    alloc: Global,
    says: &'static [u8],
    more: &'static [u8],
    left: u32,
    /// So many bytes are said on each link that is begun, behind the rest.
    pub long: usize,
    /// So often something more is said where more is asked for than was given.
    pub extra: u32,
    pub heard: Vec<u8>,
    pub linked: u32,
    pub shipped: u32,
    /// How often it was asked for more than was given, and after which number last.
    pub more_asked: u32,
    pub after: u64,
}

impl Drop for Talker {
    fn drop(self) {
        let Talker {
            alloc: _,
            says: _,
            more: _,
            left: _,
            long: _,
            extra: _,
            heard: _heard,
            linked: _,
            shipped: _,
            more_asked: _,
            after: _,
        } = self;
    }
}

/// No memory.
#[derive(Debug, Drop)]
pub struct Refused;

impl Talker {
    pub fn new(alloc: Global, says: &'static [u8], more: &'static [u8], left: u32) -> Talker {
        Talker {
            alloc,
            says,
            more,
            left,
            long: 0,
            extra: 0,
            heard: Vec::new(alloc),
            linked: 0,
            shipped: 0,
            more_asked: 0,
            after: 0,
        }
    }

    fn silence(&self) -> Given {
        Given {
            outputs: Vec::new(self.alloc),
            frames: Vec::new(self.alloc),
        }
    }

    fn gives(&self, peer: u16, text: &[u8]) -> Result<Given, Refused> {
        let bytes = Vec::from_slice(self.alloc, text).map_err(|_| Refused)?;
        let mut given = self.silence();
        let said = given.frames.push(PeerFrame { peer, bytes });
        said.map_err(|_| Refused)?;
        Ok(given)
    }

    /// What is said on a link that is begun.
    fn greets(&self, peer: u16) -> Result<Given, Refused> {
        let mut given = self.gives(peer, self.says)?;
        if self.long > 0 {
            let bytes = vec![in self.alloc; 0; self.long].map_err(|_| Refused)?;
            let said = given.frames.push(PeerFrame { peer, bytes });
            said.map_err(|_| Refused)?;
        }
        Ok(given)
    }

    fn keeps(&mut self, bytes: &[u8]) -> Result<Given, Refused> {
        self.heard.extend_from_slice(bytes).map_err(|_| Refused)?;
        self.heard.push(b'/').map_err(|_| Refused)?;
        Ok(self.silence())
    }
}

impl Handler for Talker {
    type Fault = Refused;

    ghost use Rattle.std.specs.Prelude.{List};

    ghost handles = { λ _ _ _ _. Unit {0} };

    ghost refuses = { λ _ _ _ _. Unit {0} };

    ghost settles = { λ _ _. Unit {0} };

    ghost stops = { λ _ _ _. Unit {0} };

    fn handle(&mut self, _event: Event) -> Result<Vec<Output>, Refused> {
        Ok(Vec::new(self.alloc))
    }

    fn settle(&mut self) -> Result<(), Refused> {
        Ok(())
    }
}

impl BridgeHandler for Talker {
    ghost hears = { λ _ _ _ _. Unit {0} };

    ghost declines = { λ _ _ _ _. Unit {0} };

    fn hear(&mut self, event: PeerEvent) -> Result<Given, Refused> {
        match event.kind {
            PeerEventKind::Linked { peer } => {
                self.linked = self.linked.saturating_add(1);
                self.greets(peer)
            }
            PeerEventKind::Ship { peer } => {
                if self.shipped >= self.left {
                    return Ok(self.silence());
                }
                self.shipped = self.shipped.saturating_add(1);
                self.gives(peer, self.more)
            }
            PeerEventKind::More { peer, after } => {
                self.more_asked = self.more_asked.saturating_add(1);
                self.after = after;
                if self.more_asked > self.extra {
                    return Ok(self.silence());
                }
                self.gives(peer, self.more)
            }
            PeerEventKind::Frame { bytes } => self.keeps(&bytes),
        }
    }
}
