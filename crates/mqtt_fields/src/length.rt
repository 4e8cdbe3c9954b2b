//! Which blocks have a spelling, and how long it is.

ghost use Rattle.std.specs.Prelude.{◌≡◌, ◌↔◌, ◌<◌, ◌≤◌, ◌^◌, ◌==◌, IsTrue, length, MatchOption, IfSome};
ghost use Rattle.mqtt_fields.specs.declared.table.Place.{Place};
ghost use Rattle.mqtt_fields.specs.Block.{property_bytes, properties_bytes, property, properties};

use crate::block::is_new;
use crate::table::{Place, ValueKind, entry_of, is_here};
use crate::value::{Property, value_len};
use crate::vbi::Vbi;

/// How many bytes a property takes after these ones, unless it may not stand there.
#[tactic(auto, using(crate::proofs::LengthLaws::own_kind), unfolding(crate::specs::Block::property))]
fn property_len(place: Place, before: &[Property], p: &Property) -> Option<usize>
    ensures exact { let Fits = (property place before.now).Fits p.now in
        MatchOption result (¬ Fits) (λ n. Fits × (n ≡ length (property_bytes p.now))) }
    ensures small { IfSome result (λ n. n ≤ 2 ^ 18) }
{
    let entry = entry_of(p.id)?;
    if !is_here(entry, place) || !is_new(place, before, p.id) || entry.kind != p.value.kind() {
        return None;
    }
    let len = value_len(&p.value)?;
    Some(1 + len)
}

/// How many bytes the properties of a block take, unless it has no spelling.
#[tactic(auto, unfolding(crate::specs::Block::properties))]
pub fn properties_len(place: Place, ps: &[Property]) -> Option<usize>
    ensures { let Fits = (properties place).Fits ps.now in
        MatchOption result (¬ Fits) (λ n. Fits × (n ≡ length (properties_bytes ps.now))) }
{
    let mut total = 0;
    for i in 0..ps.len() {
        let len = property_len(place, &ps[..i], &ps[i])?;
        if len > Vbi::MAX as usize - total {
            return None;
        }
        total += len;
    }
    Some(total)
}
