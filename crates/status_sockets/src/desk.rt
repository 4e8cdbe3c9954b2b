//! All connections.

ghost use Rattle.std.specs.Prelude.{◌≡◌, ◌-◌, ◌<◌, ◌≤◌, ◌↔◌, length, replicate, string_bytes, None, IfOk, IfSome, IsTrue};
ghost use Rattle.std.specs.List.{All, list_any};
ghost use Rattle.status_sockets.specs.Waiting.{IsInTime};
ghost use Rattle.status_sockets.specs.Desks.{AreInTime, IsFirst, IsSeat, asks_at, rank_of};

use crate::visitor::{PIECE, Visitor};
use broker_sockets::Sockets;
use status_figures::Figures;
use std::alloc::{AllocError, Global};
use std::hash::RandomState;

/// At most so many connections are open.
const MOST: usize = 16;

/// Where a node's status is asked for, by these names too: a listener, and at most sixteen connections. No call waits, and none fails.
#[derive(Drop)]
pub struct Desk<L: Drop, T: Drop> {
    alloc: Global,
    keys: RandomState,
    listener: L,
    names: String,
    places: Vec<Option<Visitor<T>>>,
    ghost sixteen: { length places.items ≡ 16 },
}

/// So many places that are free.
fn free_places<T: Drop>(alloc: Global) -> Result<Vec<Option<Visitor<T>>>, AllocError>
    ensures { IfOk result (λ places. places.items ≡ replicate 16 None) }
{
    let mut places = Vec::new(alloc);
    for _ in 0..MOST {
        places.push(None)?;
    }
    Ok(places)
}

/// Whether the first place comes before the second for somebody who comes: it is free and the other one isn't, or its visitor has been
/// there longer without a whole request.
fn is_before<T: Drop>(first: &Option<Visitor<T>>, second: &Option<Visitor<T>>) -> bool
    ensures { IsTrue result ↔ (rank_of first.now < rank_of second.now) }
{
    match (first, second) {
        (_, None) => false,
        (None, Some(_)) => true,
        (Some(first), Some(second)) => first.since < second.since,
    }
}

/// Of two places the one that comes first for somebody who comes.
fn first_of<T: Drop>(places: &[Option<Visitor<T>>], one: usize, other: usize) -> usize
    requires one { one < length places.now }
    requires other { other < length places.now }
    ensures { IsFirst places.now one other result }
{
    if is_before(&places[other], &places[one]) {
        other
    } else {
        one
    }
}

/// The place for somebody who comes: a free one, or that of the one who has been there longest without a whole request.
fn seat_of<T: Drop>(places: &[Option<Visitor<T>>]) -> usize
    requires { 0 < length places.now }
    ensures { IsSeat places.now result }
{
    let mut seat = 0;
    for index in 0..places.len() {
        seat = first_of(places, seat, index);
    }
    seat
}

/// Reads from the one in this place, or lets it go.
fn hear<S: Sockets>(
    place: &mut Option<Visitor<S::Stream>>,
    sockets: &mut S,
    buffer: &mut [u8],
    at: u64,
) {
    let stays = match place {
        Some(visitor) => visitor.read(sockets, buffer, at),
        None => true,
    };
    if !stays {
        *place = None;
    }
}

/// Reads from each place in turn.
fn hear_all<S: Sockets>(places: &mut [Option<Visitor<S::Stream>>], sockets: &mut S, at: u64) {
    let mut buffer = [0; PIECE];
    for place in places.iter_mut() {
        hear(place, sockets, &mut buffer, at);
    }
}

/// Whether a request may be there at a place.
fn asks_at<T: Drop>(place: &Option<Visitor<T>>) -> bool
    ensures { result ≡ asks_at place.now }
{
    match place {
        Some(visitor) => visitor.asks(),
        None => false,
    }
}

/// Answers the one in this place, or lets it go.
fn attend<S: Sockets>(
    alloc: Global,
    place: &mut Option<Visitor<S::Stream>>,
    sockets: &mut S,
    figures: Option<&Figures>,
    names: &str,
    at: u64,
)
    ensures { IfSome place.new (λ visitor. IsInTime at visitor.since visitor.begun) }
{
    let stays = match place {
        Some(visitor) => visitor.attend(alloc, sockets, figures, names, at),
        None => true,
    };
    if !stays {
        *place = None;
    }
}

/// Lets those in who have come, at most sixteen. Where no place is free the one goes who has been there longest without a whole request.
fn let_in_all<S: Sockets>(
    alloc: Global,
    keys: RandomState,
    places: &mut [Option<Visitor<S::Stream>>],
    sockets: &mut S,
    listener: &S::Listener,
    at: u64,
)
    requires { length places.old ≡ 16 }
{
    for _ in 0..MOST {
        match sockets.accept(listener) {
            Some(stream) => {
                let seat = seat_of(places);
                if let Some(place) = places.get_mut(seat) {
                    *place = Some(Visitor::new(alloc, keys, stream, at));
                }
            }
            None => return,
        }
    }
}

/// Attends to each place in turn.
fn attend_all<S: Sockets>(
    alloc: Global,
    places: &mut [Option<Visitor<S::Stream>>],
    sockets: &mut S,
    figures: Option<&Figures>,
    names: &str,
    at: u64,
)
    ensures { AreInTime at places.new }
{
    for place in places.iter_mut() {
        attend(alloc, place, sockets, figures, names, at);
    }
}

impl<L: Drop, T: Drop> Desk<L, T> {
    /// A desk at a listener, where nobody is. The names, with commas between them, are hosts that the node may be asked by, beside an IP address,
    /// `localhost` and its own name. The keys are secret, since those who ask choose the names of headers.
    pub fn new(
        alloc: Global,
        keys: RandomState,
        listener: L,
        names: &str,
    ) -> Result<Desk<L, T>, AllocError>
        ensures nobody { IfOk result (λ desk. desk.places.items ≡ replicate 16 None) }
        ensures names { IfOk result (λ desk. string_bytes desk.names ≡ names.now) }
        ensures listener { IfOk result (λ desk. desk.listener ≡ listener) }
    {
        let names = String::from_str(alloc, names)?;
        let places = free_places(alloc)?;
        Ok(Desk {
            alloc,
            keys,
            listener,
            names,
            places,
        })
    }

    /// How many connections are open.
    pub fn visitors(&self) -> usize
        ensures { result ≤ 16 }
    {
        self.places.iter().filter(|place| place.is_some()).count()
    }

    /// Lets those in who have come, at a moment in milliseconds. Where no place is free the one goes who has been there longest without a
    /// whole request.
    pub fn let_in<S: Sockets<Listener = L, Stream = T>>(&mut self, sockets: &mut S, at: u64)
        ensures { self.new.listener ≡ self.old.listener }
    {
        let_in_all(
            self.alloc,
            self.keys,
            &mut self.places,
            sockets,
            &self.listener,
            at,
        );
    }

    /// Reads from each who is there, at most once, at a moment in milliseconds. Who is gone is let go.
    pub fn read<S: Sockets<Listener = L, Stream = T>>(&mut self, sockets: &mut S, at: u64)
        ensures { self.new.listener ≡ self.old.listener }
    {
        hear_all(&mut self.places, sockets, at);
    }

    /// Whether figures are asked for: a request was begun that isn't answered yet, or one was answered and another one may wait behind it.
    pub fn is_asked(&self) -> bool
        ensures { result ≡ list_any asks_at self.now.places.items }
    {
        self.places.iter().any(|place| asks_at(place))
    }

    /// Attends to those who are there, at a moment in milliseconds: each is answered by these figures, where there are some, and is written to,
    /// at most once. Who is done or gone is let go, who had no whole request for ten seconds, and who has
    /// begun one two seconds ago that isn't there whole.
    pub fn attend<S: Sockets<Listener = L, Stream = T>>(
        &mut self,
        sockets: &mut S,
        figures: Option<&Figures>,
        at: u64,
    )
        ensures in_time { AreInTime at self.new.places.items }
        ensures listener { self.new.listener ≡ self.old.listener }
    {
        attend_all(
            self.alloc,
            &mut self.places,
            sockets,
            figures,
            self.names.as_str(),
            at,
        );
    }
}
