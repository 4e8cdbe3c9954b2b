//! Which clients are due when.

ghost use Rattle.std.specs.Prelude.{◌≡◌, ◌↔◌, IfSome, IsTrue, None, OnErr, OnOk};
ghost use Rattle.session_table.specs.Listing as spec;
ghost use Rattle.session_table.specs.Wants.{HasNewMoment, IsNewMoment};
ghost use Rattle.session_table.specs.Listing.{IsAt, IsListedAt, KeepsOthers, Relists};

use crate::DueTimes;
use crate::moments::Moments;
use mqtt_fields::{NoMemory, Text};
use std::alloc::Global;

/// The clients that have something due, by the moment.
#[derive(Drop)]
pub struct Listing {
    pub run_outs: DueTimes,
    pub wills: DueTimes,
    pub ends: DueTimes,
}

fn is_same(a: Option<u64>, b: Option<u64>) -> bool
    ensures { IsTrue result ↔ a ≡ b }
{
    match (a, b) {
        (Some(a), Some(b)) => a == b,
        (None, None) => true,
        _ => false,
    }
}

/// Takes a client out of a list, and gives its name that was kept there. `key` has its name too.
fn withdraw(list: &mut DueTimes, key: &mut (u64, Text), listed: &mut Option<u64>) -> Option<Text>
    requires { IsAt list.old key.old.1 listed.old }
    ensures at { IsAt list.new key.old.1 None }
    ensures others { KeepsOthers key.old.1 list.old list.new }
    ensures listed { listed.new ≡ None }
    ensures key { key.new.1 ≡ key.old.1 }
    ensures name { IfSome result (λ name. name ≡ key.old.1) }
{
    let Some(at) = listed.take() else {
        return None;
    };
    key.0 = at;
    match list.take(&*key) {
        Some((_, name)) => Some(name),
        None => None,
    }
}

/// Puts a client into a list at another moment. Where memory is refused, it isn't there; at the same moment, or at none, none is
/// asked for.
fn change(
    list: &mut DueTimes,
    alloc: Global,
    key: &mut (u64, Text),
    listed: &mut Option<u64>,
    moment: Option<u64>,
) -> Result<(), NoMemory>
    requires { IsAt list.old key.old.1 listed.old }
    ensures at { IsAt list.new key.old.1 listed.new }
    ensures others { KeepsOthers key.old.1 list.old list.new }
    ensures key { key.new.1 ≡ key.old.1 }
    ensures ok { OnOk result (listed.new ≡ moment) }
    ensures want { OnErr result (IsNewMoment listed.old moment) }
{
    if is_same(*listed, moment) {
        return Ok(());
    }
    let taken = withdraw(list, key, listed);
    let Some(at) = moment else {
        return Ok(());
    };
    let name = match taken {
        Some(name) => name,
        None => key.1.copy(alloc)?,
    };
    list.insert((at, name))?;
    *listed = Some(at);
    Ok(())
}

/// Lists a client at other moments. Where memory is refused, it is listed as `listed` says then.
pub(crate) fn relist(
    listing: &mut Listing,
    alloc: Global,
    key: &mut (u64, Text),
    listed: &mut Moments,
    moments: Moments,
) -> Result<(), NoMemory>
    requires { IsListedAt listing.old key.old.1 listed.old }
    ensures at { IsListedAt listing.new key.old.1 listed.new }
    ensures others { Relists key.old.1 listing.old listing.new }
    ensures key { key.new.1 ≡ key.old.1 }
    ensures ok { OnOk result (listed.new ≡ moments) }
    ensures want { OnErr result (HasNewMoment listed.old moments) }
{
    change(
        &mut listing.run_outs,
        alloc,
        key,
        &mut listed.run_out,
        moments.run_out,
    )?;
    change(
        &mut listing.wills,
        alloc,
        key,
        &mut listed.will,
        moments.will,
    )?;
    change(&mut listing.ends, alloc, key, &mut listed.end, moments.end)
}

/// Takes a client out of the lists.
pub(crate) fn unlist(listing: &mut Listing, key: &mut (u64, Text), listed: &mut Moments)
    requires { IsListedAt listing.old key.old.1 listed.old }
    ensures at { IsListedAt listing.new key.old.1 spec.no_moments }
    ensures others { Relists key.old.1 listing.old listing.new }
    ensures key { key.new.1 ≡ key.old.1 }
{
    withdraw(&mut listing.run_outs, key, &mut listed.run_out);
    withdraw(&mut listing.wills, key, &mut listed.will);
    withdraw(&mut listing.ends, key, &mut listed.end);
}
