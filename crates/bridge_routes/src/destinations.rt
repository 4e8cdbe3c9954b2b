//! Where the clients are at home that a message is for.

ghost use Rattle.std.specs.Prelude.{◌≡◌, ◌<◌, ◌+◌, ◌||◌, false, nat_le, length, if◌then◌else◌, IfOk, OnErr, IsOk};
ghost use Rattle.bridge_routes.specs.Picks.{AreShared};
ghost use Rattle.bridge_routes.specs.Tables.{referents};
ghost use Rattle.mqtt_topics.specs.Topics.{IsShared};
ghost use Rattle.bridge_routes.specs.Routes.{AreFor, IsHomeOf, IsHomed, Pairwise, forward_at, frame_length, has_pick, is_at, is_wanted, picks_at, route_of};

use crate::GroupPick;
use crate::length::frame_length;
use bridge_frames::{Forward, Pick, Picks, SharedFilter};
use home_table::HomeTable;
use mqtt_fields::NoMemory;
use mqtt_message::SharedMessage;
use mqtt_topics::Filter;
use std::alloc::Global;
use subscription_set::Entry;

/// The most bytes of a frame after its length.
const FRAME_ROOM: usize = 2_097_152;

/// A member of a shared group that gets a message, and the home of its client.
#[derive(Drop)]
pub struct HomedPick {
    pub pick: Pick,
    pub home: u16,
}

/// The homes of the clients of plain subscriptions that match a message, one for each of these, and the picks of shared groups
/// with theirs.
#[derive(Drop)]
pub struct Destinations {
    pub homes: Vec<u16>,
    pub picks: Vec<HomedPick>,
}

/// What becomes of a message at another node.
#[derive(Drop)]
pub enum Route {
    /// It has no client for it.
    Nothing,
    /// It gets this.
    Lane(Forward),
    /// It would get more than a frame may hold.
    TooLarge,
}

// The homes of the clients of subscriptions.
fn homes_of(alloc: Global, table: &HomeTable, matching: &[&Entry]) -> Result<Vec<u16>, NoMemory>
    ensures homes { IfOk result (λ homes. Pairwise (IsHomeOf table.now) (referents matching.now) homes.items) }
    ensures memory { OnErr result (0 < length matching.now) }
{
    let mut homes = Vec::new(alloc);
    for entry in matching {
        homes.push(table.home_of(entry.client().as_str()))?;
    }
    Ok(homes)
}

// The filter of a shared subscription once more.
fn shared(alloc: Global, filter: &Filter) -> Result<SharedFilter, NoMemory>
    requires { IsShared filter.now }
    ensures { IfOk result (λ shared. shared ≡ filter.now) }
{
    let copy = filter.copy(alloc)?;
    Ok(SharedFilter::of(copy).unwrap())
}

// A pick as it is named to its client's home, and that home.
fn homed(alloc: Global, table: &HomeTable, pick: &GroupPick) -> Result<HomedPick, NoMemory>
    requires { IsShared pick.now.filter }
    ensures { IfOk result (λ homed. IsHomed table.now pick.now homed) }
{
    Ok(HomedPick {
        pick: Pick {
            client: pick.client.copy(alloc)?,
            filter: shared(alloc, &pick.filter)?,
        },
        home: table.home_of(pick.client.as_str()),
    })
}

// The picks with the homes of their clients.
fn homed_picks(
    alloc: Global,
    table: &HomeTable,
    picks: &[GroupPick],
) -> Result<Vec<HomedPick>, NoMemory>
    requires { AreShared picks.now }
    ensures picks { IfOk result (λ out. Pairwise (IsHomed table.now) picks.now out.items) }
    ensures memory { OnErr result (0 < length picks.now) }
{
    let mut out = Vec::new(alloc);
    for pick in picks {
        out.push(homed(alloc, table, pick)?)?;
    }
    Ok(out)
}

// The picks at a node.
fn picks_at(alloc: Global, node: u16, picks: &[HomedPick]) -> Result<Vec<Pick>, NoMemory>
    ensures picks { IfOk result (λ out. out.items ≡ picks_at node picks.now) }
    ensures memory { OnErr result (0 < length (picks_at node picks.now)) }
{
    let mut out = Vec::new(alloc);
    for homed in picks {
        if homed.home == node {
            out.push(homed.pick.copy(alloc)?)?;
        }
    }
    Ok(out)
}

// Whether one of the homes is the node.
fn is_at(node: u16, homes: &[u16]) -> bool
    ensures { result ≡ is_at node homes.now }
{
    for home in homes {
        if *home == node {
            return true;
        }
    }
    false
}

// Whether a client is to have the message.
fn is_wanted(plain: bool, picks: &[Pick]) -> bool
    ensures { result ≡ (plain || has_pick picks.now) }
{
    plain || !picks.is_empty()
}

// What becomes of a message that is wanted at a node.
fn fitting(forward: Forward) -> Route
    ensures { result ≡ (if nat_le (frame_length forward) 2097152 then Route.Lane forward else Route.TooLarge) }
{
    if frame_length(&forward) > FRAME_ROOM {
        return Route::TooLarge;
    }
    Route::Lane(forward)
}

impl Destinations {
    /// Where the clients of these subscriptions and picks are at home. Only they take memory.
    pub fn of(
        alloc: Global,
        table: &HomeTable,
        matching: &[&Entry],
        picks: &[GroupPick],
    ) -> Result<Destinations, NoMemory>
        requires { AreShared picks.now }
        ensures homes { IfOk result (λ d. AreFor table.now (referents matching.now) picks.now d) }
        ensures memory { OnErr result (0 < length matching.now + length picks.now) }
    {
        Ok(Destinations {
            homes: homes_of(alloc, table, matching)?,
            picks: homed_picks(alloc, table, picks)?,
        })
    }

    /// What becomes of the message at the node: nothing, where it is for no client there, which takes no memory; else it
    /// goes there with a flag, where plain subscriptions of clients there match, and with the picks there, unless these are more than 65,535 or
    /// its frame would have more than 2,097,152 bytes after its length.
    #[tactic(auto, using(crate::proofs::Routing::route_wanted))]
    pub fn route(
        &self,
        alloc: Global,
        node: u16,
        message: &SharedMessage,
    ) -> Result<Route, NoMemory>
        ensures route { IfOk result (λ r. r ≡ route_of (forward_at node message.now self.now)) }
        ensures memory { is_wanted (forward_at node message.now self.now) ≡ false → IsOk result }
    {
        let plain = is_at(node, self.homes.as_slice());
        let picks = picks_at(alloc, node, self.picks.as_slice())?;
        if !is_wanted(plain, picks.as_slice()) {
            return Ok(Route::Nothing);
        }
        let Some(picks) = Picks::of(picks) else {
            return Ok(Route::TooLarge);
        };
        let message = message.copy()?;
        Ok(fitting(Forward {
            plain,
            picks,
            message,
        }))
    }
}
