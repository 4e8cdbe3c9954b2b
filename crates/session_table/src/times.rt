//! Which client is due when.

ghost use Rattle.std.specs.Prelude.{◌≡◌, [], IfOk, IfSome, IsOk, OnErr, OnOk, is_some, nat_le};
ghost use Rattle.std.specs.FinMap as map;
ghost use Rattle.std.specs.List.{filter};

use mqtt_fields::{NoMemory, Text};
use std::alloc::Global;
use std::collections::BTreeSet;
use std::marker::Model;

/// Moments, each with a client, in the order of the moments and then of the clients' bytes.
#[derive(Drop)]
pub struct DueTimes {
    order: BTreeSet<(u64, Text)>,
}

impl Model for DueTimes {
    ghost use Rattle.session_table.specs.Dues.{Dues, coded_dues, set_of};

    ghost Value = { Dues };

    ghost coded = { coded_dues };

    ghost view = { λ d. set_of d.order.keys };
}

impl DueTimes {
    /// Nothing is due.
    pub fn new(alloc: Global) -> DueTimes
        ensures { result ≡ map.empty }
    {
        DueTimes {
            order: BTreeSet::new(alloc),
        }
    }

    /// Puts a client in at a moment.
    pub fn insert(&mut self, due: (u64, Text)) -> Result<(), NoMemory>
        ensures ok { OnOk result (self.new ≡ map.insert self.old due tt) }
        ensures err { OnErr result (self.new ≡ self.old) }
    {
        self.order.insert(due)?;
        Ok(())
    }

    /// Takes a client out at a moment, and gives the pair that was kept, if there was one.
    pub fn take(&mut self, due: &(u64, Text)) -> Option<(u64, Text)>
        ensures left { self.new ≡ map.remove self.old due.now }
        ensures found { is_some result ≡ map.contains_key self.old due.now }
        ensures same { IfSome result (λ found. found ≡ due.now) }
    {
        self.order.take(due)
    }

    /// Those whose moment has come, in order. It takes memory only where there are some.
    pub fn due(&self, alloc: Global, now: u64) -> Result<Vec<(u64, Text)>, NoMemory>
        ensures due { IfOk result
            (λ out. out.items ≡ filter (λ d. nat_le d.0 now) (map.keys self.now)) }
        ensures none { filter (λ d. nat_le d.0 now) (map.keys self.now) ≡ [] → IsOk result }
    {
        let mut out = Vec::new(alloc);
        for due in self.order.iter() {
            if due.0 > now {
                break;
            }
            out.push((due.0, due.1.copy(alloc)?))?;
        }
        Ok(out)
    }

    /// All of them, in order. It takes memory only where there are some.
    pub fn into_pairs(self, alloc: Global) -> Result<Vec<(u64, Text)>, NoMemory>
        ensures all { IfOk result (λ out. out.items ≡ map.keys self) }
        ensures none { map.keys self ≡ [] → IsOk result }
    {
        let mut out = Vec::new(alloc);
        for due in self.order {
            out.push(due)?;
        }
        Ok(out)
    }
}
