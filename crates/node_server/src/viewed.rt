//! A handler at which somebody looks once what it has decided lasts.

ghost use Rattle.std.specs.Prelude.{◌≡◌};
ghost use Rattle.node_server.specs.Viewing.{ViewingChangesNothing};

use broker_sockets::{BridgeHandler, Event, EventKind, Given, Handler, Output, PeerEvent};

/// Looks at a handler, which it can't change, where all that this has decided lasts.
///
/// `may_see` holds of a handler at which it may look, and so of each one that has just settled.
pub trait Viewer<H: Handler> {
    ghost may_see: { H → Type 0 };

    /// Looks at the handler at a moment in milliseconds.
    fn view(&mut self, handler: &H, at: u64)
        requires { may_see handler.now };

    ghost settled: { (h h' : H) → H.settles h h' → may_see h' };
}

/// A handler with somebody who looks at it, or with nobody: once in each turn, after it has settled what it decided up to the turn's tick. Nobody sees what it
/// has decided and may not last. The handler inside is told all, and just what it gives out goes out.
#[derive(Drop)]
pub struct Viewed<H, W> {
    inside: H,
    viewer: Option<W>,
    /// The moment of the tick after which it hasn't settled yet.
    ticked: Option<u64>,
}

impl<H, W> Viewed<H, W> {
    /// A handler with this viewer, or with none.
    pub fn new(inside: H, viewer: Option<W>) -> Viewed<H, W>
        ensures { result.inside ≡ inside }
    {
        Viewed {
            inside,
            viewer,
            ticked: None,
        }
    }
}

impl<H, W: Drop> Viewed<H, W> {
    /// Takes the handler inside.
    pub fn into_inside(self) -> H
        ensures { result ≡ self.inside }
    {
        let Viewed {
            inside,
            viewer: _viewer,
            ticked: _,
        } = self;
        inside
    }
}

fn is_tick(kind: &EventKind) -> bool {
    match kind {
        EventKind::Tick => true,
        _ => false,
    }
}

impl<H: Handler, W: Viewer<H>> Viewed<H, W> {
    /// Whoever looks at the handler does, where there is somebody and a tick was settled.
    fn look(&mut self)
        requires { W.may_see self.old.inside }
        ensures { self.new.inside ≡ self.old.inside }
    {
        let Some(at) = self.ticked.take() else {
            return;
        };
        if let Some(viewer) = &mut self.viewer {
            viewer.view(&self.inside, at);
        }
    }
}

impl<H: Handler, W: Viewer<H>> Handler for Viewed<H, W> {
    type Fault = H::Fault;

    ghost handles = { λ d e outputs d'. H.handles d.inside e outputs d'.inside };

    ghost refuses = { λ d e fault d'. H.refuses d.inside e fault d'.inside };

    ghost settles = { λ d d'. H.settles d.inside d'.inside };

    ghost stops = { λ d fault d'. H.stops d.inside fault d'.inside };

    /// Tells the handler inside.
    fn handle(&mut self, event: Event) -> Result<Vec<Output>, H::Fault> {
        if is_tick(&event.kind) {
            self.ticked = Some(event.at);
        }
        self.inside.handle(event)
    }

    /// The handler inside settles, and is looked at.
    fn settle(&mut self) -> Result<(), H::Fault> {
        match self.inside.settle() {
            Ok(()) => {
                self.look();
                Ok(())
            }
            Err(fault) => Err(fault),
        }
    }
}

impl<H: BridgeHandler, W: Viewer<H>> BridgeHandler for Viewed<H, W> {
    ghost hears = { λ d e given d'. H.hears d.inside e given d'.inside };

    ghost declines = { λ d e fault d'. H.declines d.inside e fault d'.inside };

    /// Tells the handler inside.
    fn hear(&mut self, event: PeerEvent) -> Result<Given, H::Fault> {
        self.inside.hear(event)
    }
}

/// Whoever looks at the handler, each call is just that call of the handler inside.
pub fn viewing_changes_nothing<H: BridgeHandler, W: Viewer<H>>()
    ensures { ViewingChangesNothing H.handles H.hears H.settles
        ⟦<Viewed<H, W> as Handler>⟧.handles ⟦<Viewed<H, W> as BridgeHandler>⟧.hears ⟦<Viewed<H, W> as Handler>⟧.settles }
{}
