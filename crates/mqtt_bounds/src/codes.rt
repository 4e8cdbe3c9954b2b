//! The Reason Codes of filters.

ghost use Rattle.std.specs.Prelude.{◌≡◌};

use std::alloc::Global;
use std::marker::Model;

/// The Reason Codes of filters, in their order; none for one that is asked for.
#[derive(Drop)]
pub struct Codes {
    items: Vec<Option<u8>>,
}

impl Model for Codes {
    ghost use Rattle.std.specs.Prelude.{List, Option, ℕ};

    ghost Value = { List (Option ℕ) };

    ghost view = { λ c. c.items.items };
}

impl Codes {
    /// These codes.
    pub fn new(items: Vec<Option<u8>>) -> Codes
        ensures { result ≡ items.items }
    {
        Codes { items }
    }

    /// The codes as a slice.
    pub fn as_slice(&self) -> &[Option<u8>]
        ensures { result.now ≡ self.now }
    {
        self.items.as_slice()
    }
}
