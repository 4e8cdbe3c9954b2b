//! Who knows the figures of a handler.

use status_figures::Figures;
use std::alloc::{AllocError, Global};

/// Knows the figures of a handler, which it can't change.
///
/// `tells` relates it and the handler, at a moment, to the figures that it tells then.
pub trait Teller<H> {
    ghost use Rattle.std.specs.Prelude.{ℕ, IfOk, IfSome};
    ghost use Rattle.status_figures.specs.declared.figures.Figures.{Figures};

    ghost tells: { Self → H → ℕ → Figures → Type 0 };

    /// The handler's figures at a moment in milliseconds, if there are some.
    fn tell(&self, alloc: Global, handler: &H, at: u64) -> Result<Option<Figures>, AllocError>
        ensures { IfOk result (λ told. IfSome told (tells self.now handler.now at)) };
}
