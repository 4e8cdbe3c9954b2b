//! What a handler that guards keeps.

ghost use Rattle.std.specs.Prelude.{◌≡◌, ℕ, None};
ghost use Rattle.door_guard.specs.Clients.{client_of};
ghost use Rattle.door_guard.specs.Counts.{none_refused};

use crate::known::Known;
use std::alloc::Global;

/// Who may do what, and what is known of clients.
#[derive(Drop)]
pub(crate) struct Door<A> {
    pub(crate) access: A,
    pub(crate) known: Known,
}

impl<A> Door<A> {
    /// No connection is open.
    pub(crate) fn new(alloc: Global, access: A) -> Door<A>
        ensures access { result.access ≡ access }
        ensures none { (q : ℕ) → client_of result.known.clients q ≡ None }
        ensures counts { result.known.refusals ≡ none_refused }
    {
        Door {
            access,
            known: Known::new(alloc),
        }
    }
}
