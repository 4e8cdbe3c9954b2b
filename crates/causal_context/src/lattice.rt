//! Values that merge.
ghost use Rattle.std.specs.Prelude.{◌≡◌, OnOk, OnErr, ◌↔◌, IsTrue};
ghost use Rattle.causal_context.specs.Lattices.{LatticeLaws};

use mqtt_fields::NoMemory;

/// Values with a least value above any two of them: a join-semilattice, as states that replicas
/// merge in any order, and more than once (Almeida, Shoker, Baquero, on state-based CRDTs).
pub trait Lattice {
    /// The least value above both.
    ghost joined: { Self → Self → Self };

    /// Whether the second is above the first.
    ghost Below: { Self → Self → Type 0 };

    /// Takes in the other value. Where memory runs out it stays as it was.
    fn join(&mut self, other: &Self) -> Result<(), NoMemory>
        ensures ok { OnOk result (self.new ≡ joined self.old other.now) }
        ensures err { OnErr result (self.new ≡ self.old) };

    /// Whether the other value is above this one. It takes no memory.
    fn is_below(&self, other: &Self) -> bool
        ensures { IsTrue result ↔ Below self.now other.now };

    ghost laws: { LatticeLaws joined Below };
}
