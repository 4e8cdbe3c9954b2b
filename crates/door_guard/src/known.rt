//! What is known of all clients.

ghost use Rattle.std.specs.Prelude.{◌≡◌, ◌++◌, ◌∷◌, [], ℕ, None, OnOk};
ghost use Rattle.door_guard.specs.Clients.{IsBut, client_of, login_at, restaged};
ghost use Rattle.door_guard.specs.Counts.{none_refused};
ghost use Rattle.door_packets.specs.Marks.{IsForgotten, IsMarked, is_marked};
ghost use Rattle.door_packets.specs.declared.client.Stage.TheVariants as stages;

use crate::clients::Clients;
use crate::counts::Refusals;
use door_packets::{Client, Login, Marks, Stage};
use mqtt_fields::NoMemory;
use std::alloc::Global;

/// What is known of all clients.
pub(crate) struct Known {
    pub(crate) clients: Clients,
    /// Those whose next CONNECT begins a new session.
    pub(crate) marks: Marks,
    /// Connections whose end went out, and of which the handler inside isn't told that yet.
    pub(crate) leaving: Vec<u64>,
    pub(crate) refusals: Refusals,
}

impl Drop for Known {
    fn drop(self) {
        let Known {
            clients: _clients,
            marks: _marks,
            leaving: _leaving,
            refusals: _refusals,
        } = self;
    }
}

/// The session of this client has to end.
fn mark(marks: &mut Marks, login: Option<Login>) -> Result<(), NoMemory>
    ensures { OnOk result (IsMarked login marks.old marks.new) }
{
    match login {
        None => Ok(()),
        Some(login) => marks.add(login.client),
    }
}

/// The session of a client that was let in doesn't have to end any more.
pub(crate) fn forget(marks: &mut Marks, client: &Client)
    ensures { IsForgotten client.now.login marks.old marks.new }
{
    if let Some(login) = &client.login {
        marks.remove(&login.client);
    }
}

impl Known {
    /// No connection is open.
    pub(crate) fn new(alloc: Global) -> Known
        ensures begins { (q : ℕ) → client_of result.clients q ≡ None }
        ensures counts { result.refusals ≡ none_refused }
    {
        Known {
            clients: Clients::new(alloc),
            marks: Marks::new(alloc),
            leaving: Vec::new(alloc),
            refusals: Refusals::none(),
        }
    }

    /// The end of a connection went out.
    pub(crate) fn leave(&mut self, alloc: Global, connection: u64) -> Result<(), NoMemory>
        ensures clients { OnOk result (IsBut connection (restaged stages.Leaving (client_of self.old.clients connection)) self.old.clients self.new.clients) }
        ensures marks { OnOk result (IsMarked (login_at (client_of self.old.clients connection)) self.old.marks self.new.marks) }
        ensures listed { OnOk result (self.new.leaving.items ≡ self.old.leaving.items ++ connection ∷ []) }
        ensures counts { OnOk result (self.new.refusals ≡ self.old.refusals) }
    {
        let login = self.clients.login(alloc, connection)?;
        mark(&mut self.marks, login)?;
        self.leaving.push(connection)?;
        self.clients.restage(connection, Stage::Leaving)
    }
}
