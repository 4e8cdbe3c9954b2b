//! Members of shared groups.
ghost use Rattle.std.specs.Prelude.{[], ◌≡◌, ◌≢◌, ◌↔◌, ◌+◌, ◌<◌, ◌≤◌, ◌^◌, ◌++◌, length, take, flat_map, vec_len, vec_capacity, IfOk, IsErrOf, MatchOption, OnErr, OnOk};
ghost use Rattle.std.specs.List.{AllByRecursion};
ghost use Rattle.mqtt_fields.specs.Reading.{Gives};
ghost use Rattle.mqtt_message.specs.Spelling.{listed, values_at};
ghost use Rattle.bridge_frames.specs.Forwards as spec;
ghost use Rattle.bridge_frames.specs.Memory.{PicksWant};
ghost use Rattle.replica_bytes.specs.Memory.{HasText, WantsSome};

use crate::shared::SharedFilter;
use mqtt_fields::{FieldFault, NoMemory, Text, put_u16, u16_at};
use std::alloc::Global;
use std::marker::Model;

/// The member of a shared group that is to get a message: its client, and the whole filter of the shared
/// subscription (MQTT 5.0, 4.8.2).
#[derive(Drop)]
pub struct Pick {
    pub client: Text,
    pub filter: SharedFilter,
}

impl Pick {
    fn at(alloc: Global, bytes: &[u8]) -> Result<(Pick, &[u8]), FieldFault>
        ensures exact { Gives (λ x. (x.0, x.1.now)) result (spec.pick.at bytes.now) }
        ensures no_memory { IsErrOf result FieldFault.NoMemory → HasText bytes.now }
    {
        let (client, rest) = Text::at(alloc, bytes)?;
        let (filter, rest) = SharedFilter::at(alloc, rest)?;
        Ok((Pick { client, filter }, rest))
    }

    fn append(&self, out: &mut Vec<u8>) -> Result<(), NoMemory>
        ensures ok { OnOk result (out.new.items ≡ out.old.items ++ spec.pick.bytes self.now) }
        ensures begins { take (length out.old.items) out.new.items ≡ out.old.items }
        ensures full { OnErr result (vec_capacity out.old < vec_len out.old + length (spec.pick.bytes self.now)) }
        ensures capacity { vec_capacity out.old ≤ vec_capacity out.new }
    {
        self.client.write(out)?;
        self.filter.as_filter().as_text().write(out)
    }

    // Each pick has a spelling. This does nothing; its contract is a law.
    #[tactic(auto, using(replica_bytes::proofs::Fits::fits))]
    fn has_spelling(&self)
        ensures { spec.pick.Fits self.now }
    {
        let _client = self.client.as_str();
        let _filter = self.filter.as_filter().as_str();
    }

    /// An equal pick.
    pub fn copy(&self, alloc: Global) -> Result<Pick, NoMemory>
        ensures { IfOk result (λ p. p ≡ self.now) }
    {
        Ok(Pick {
            client: self.client.copy(alloc)?,
            filter: self.filter.copy(alloc)?,
        })
    }
}

/// Fewer than 65,536 picks, so that two bytes can count them. Contracts see the list.
#[derive(Drop)]
pub struct Picks {
    list: Vec<Pick>,
}

impl Model for Picks {
    ghost use Rattle.std.specs.Prelude.{List, ◌<◌, ◌^◌, length};
    ghost use Rattle.bridge_frames.specs.declared.pick.Pick.{Pick};

    ghost Value = { List Pick };

    ghost view = { λ p. p.list.items };

    ghost invariant = { λ p. length p.list.items < 2 ^ 16 };
}

fn list_at(alloc: Global, count: u16, bytes: &[u8]) -> Result<(Vec<Pick>, &[u8]), FieldFault>
    ensures exact { Gives (λ x. (x.0.items, x.1.now)) result (values_at spec.pick count bytes.now) }
    ensures no_memory { IsErrOf result FieldFault.NoMemory → WantsSome HasText count bytes.now }
{
    let mut list = Vec::new(alloc);
    let mut rest = bytes;
    for i in 0..count {
        let (pick, after) = Pick::at(alloc, rest)?;
        list.push(pick)?;
        rest = after;
    }
    Ok((list, rest))
}

#[tactic(auto, using(replica_bytes::proofs::Loops::begins_so))]
fn append_list(list: &[Pick], out: &mut Vec<u8>) -> Result<(), NoMemory>
    ensures ok { OnOk result (out.new.items ≡ out.old.items ++ flat_map spec.pick.bytes list.now) }
    ensures begins { take (length out.old.items) out.new.items ≡ out.old.items }
    ensures full { OnErr result (vec_capacity out.old < vec_len out.old + length (flat_map spec.pick.bytes list.now)) }
    ensures capacity { vec_capacity out.old ≤ vec_capacity out.new }
{
    for pick in list {
        pick.append(out)?;
    }
    Ok(())
}

fn all_have_spellings(list: &[Pick])
    ensures { AllByRecursion spec.pick.Fits list.now }
{
    for pick in list {
        pick.has_spelling();
    }
}

fn copied(alloc: Global, list: &[Pick]) -> Result<Vec<Pick>, NoMemory>
    ensures ok { IfOk result (λ out. out.items ≡ list.now) }
    ensures err { OnErr result (list.now ≢ []) }
{
    let mut out = Vec::new(alloc);
    for pick in list {
        out.push(pick.copy(alloc)?)?;
    }
    Ok(out)
}

impl Picks {
    /// These picks. None where there are more than 65,535.
    pub fn of(list: Vec<Pick>) -> Option<Picks>
        ensures { MatchOption result (length list.items < 2 ^ 16 → ⊥)
            (λ p. (p ≡ list.items) × (length list.items < 2 ^ 16)) }
    {
        if list.len() > 65535 {
            return None;
        }
        Some(Picks { list })
    }

    /// The picks.
    pub fn as_slice(&self) -> &[Pick]
        ensures same { result.now ≡ self.now }
        ensures few { length self.now < 2 ^ 16 }
    {
        self.list.as_slice()
    }

    /// Picks at the front, and the bytes after them.
    pub(crate) fn at(alloc: Global, bytes: &[u8]) -> Result<(Picks, &[u8]), FieldFault>
        ensures exact { Gives (λ x. (x.0, x.1.now)) result ((listed spec.pick).at bytes.now) }
        ensures no_memory { IsErrOf result FieldFault.NoMemory → PicksWant bytes.now }
    {
        let (count, rest) = u16_at(bytes)?;
        let (list, rest) = list_at(alloc, count, rest)?;
        Ok((Picks { list }, rest))
    }

    /// Appends the picks, or their beginning where memory runs out.
    pub(crate) fn append(&self, out: &mut Vec<u8>) -> Result<(), NoMemory>
        ensures ok { OnOk result (out.new.items ≡ out.old.items ++ (listed spec.pick).bytes self.now) }
        ensures begins { take (length out.old.items) out.new.items ≡ out.old.items }
        ensures full { OnErr result (vec_capacity out.old < vec_len out.old + length ((listed spec.pick).bytes self.now)) }
        ensures capacity { vec_capacity out.old ≤ vec_capacity out.new }
    {
        put_u16(self.list.len() as u16, out)?;
        append_list(&self.list, out)
    }

    /// Picks have a spelling. This does nothing; its contract is a law.
    pub(crate) fn has_spelling(&self)
        ensures { (listed spec.pick).Fits self.now }
    {
        all_have_spellings(&self.list);
    }

    /// Equal picks. None take no memory.
    pub fn copy(&self, alloc: Global) -> Result<Picks, NoMemory>
        ensures ok { IfOk result (λ p. p ≡ self.now) }
        ensures err { OnErr result (self.now ≢ []) }
    {
        let list = copied(alloc, &self.list)?;
        Ok(Picks { list })
    }
}
