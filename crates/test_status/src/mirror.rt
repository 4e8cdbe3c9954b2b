//! A handler that gives back what it gets.
use broker_sockets::{
    BridgeHandler, Event, EventKind, Given, Handler, Output, PeerEvent, PeerEventKind, PeerFrame,
};
use std::alloc::{AllocError, Global};

/// Gives back what it gets, and closes a connection on which a 0 comes first.
#[derive(Drop)]
pub(crate) struct Mirror {
    pub(crate) alloc: Global,
}

impl Handler for Mirror {
    type Fault = AllocError;

    ghost handles = { λ _ _ _ _. Unit {0} };

    ghost refuses = { λ _ _ _ _. Unit {0} };

    ghost settles = { λ _ _. Unit {0} };

    ghost stops = { λ _ _ _. Unit {0} };

    fn handle(&mut self, event: Event) -> Result<Vec<Output>, AllocError> {
        let mut outputs = Vec::new(self.alloc);
        if let EventKind::Piece { connection, bytes } = event.kind {
            if bytes.first() == Some(&0) {
                outputs.push(Output::Close { connection })?;
            } else {
                outputs.push(Output::Send { connection, bytes })?;
            }
        }
        Ok(outputs)
    }

    fn settle(&mut self) -> Result<(), AllocError> {
        Ok(())
    }
}

impl BridgeHandler for Mirror {
    ghost hears = { λ _ _ _ _. Unit {0} };

    ghost declines = { λ _ _ _ _. Unit {0} };

    fn hear(&mut self, event: PeerEvent) -> Result<Given, AllocError> {
        let mut frames = Vec::new(self.alloc);
        if let PeerEventKind::Frame { bytes } = event.kind {
            frames.push(PeerFrame { peer: 0, bytes })?;
        }
        Ok(Given {
            outputs: Vec::new(self.alloc),
            frames,
        })
    }
}
