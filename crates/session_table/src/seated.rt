//! Sessions as a table keeps them.

ghost use Rattle.std.specs.Prelude.{◌≡◌, Err, IfErr, IfOk, IfSome, None, OnOk};
ghost use Rattle.mqtt_sessions.specs.Saved.{state_of};
ghost use Rattle.session_table.specs.Calls.{Asks, GivesSpelled, IsSeated, MayTurn, event_of, on_of};
ghost use Rattle.session_table.specs.Listing.{IsListedAt, Relists, moments_of, no_moments, was_connected};
ghost use Rattle.session_table.specs.Wants.{WantsAt};
ghost use Rattle.session_table.specs.Rows.{IsAllTold, TellsAgain};

use crate::call::{Call, On, land};
use crate::listing::{Listing, relist, unlist};
use crate::moments::{Moments, moments_of, no_moments};
use crate::telling::turn_and_tell;
use mqtt_fields::Text;
use mqtt_sessions::{Reaction, Session, SessionFault};
use row_store::Change;
use std::alloc::Global;
use std::marker::Model;
use std::ops::Deref;

/// A session, the connection that its client is on, and the moments at which it is listed.
#[derive(Drop)]
pub struct Seated {
    pub session: Session,
    pub connection: Option<u64>,
    pub listed: Moments,
    /// The client, with a number that is written before a look-up in a list.
    pub key: (u64, Text),
}

/// The same in a block of its own. A node of a map keeps room for more entries than it has, so they are small.
#[derive(Drop)]
pub struct BoxedSeat {
    block: Box<Seated>,
}

impl Model for BoxedSeat {
    ghost use Rattle.session_table.specs.declared.seated.Seated.{Seated};

    ghost Value = { Seated };

    ghost view = { λ b. b.block.value };
}

impl Deref for BoxedSeat {
    type Target = Seated;

    ghost deref_gives = { λ b x. x ≡ b };

    fn deref(&self) -> &Seated
        ensures { result.now ≡ self.now }
    {
        &self.block
    }
}

impl BoxedSeat {
    /// Where memory is refused, this gives the session back.
    pub(crate) fn new(alloc: Global, seated: Seated) -> Result<BoxedSeat, Seated>
        ensures ok { IfOk result (λ b. b ≡ seated) }
        ensures err { IfErr result (λ back. back ≡ seated) }
    {
        match Box::new(alloc, seated) {
            Ok(block) => Ok(BoxedSeat { block }),
            Err(refused) => Err(refused.value),
        }
    }

    /// Whether its session was connected.
    pub(crate) fn was_connected(&self) -> bool
        ensures { result ≡ was_connected self.now }
    {
        self.session.is_connected()
    }

    pub(crate) fn into_inner(self) -> Seated
        ensures { result ≡ self }
    {
        Box::into_inner(self.block)
    }
}

/// A session of a client that is on no connection, and isn't listed.
pub(crate) fn seat(session: Session, name: Text) -> Seated
    ensures session { result.session ≡ session }
    ensures connection { result.connection ≡ None }
    ensures listed { result.listed ≡ no_moments }
    ensures key { result.key.1 ≡ name }
{
    Seated {
        session,
        connection: None,
        listed: no_moments(),
        key: (0, name),
    }
}

/// Takes a client out of the lists, and gives its session.
pub(crate) fn unseat(listing: &mut Listing, seated: Seated) -> Session
    requires { IsListedAt listing.old seated.key.1 seated.listed }
    ensures at { IsListedAt listing.new seated.key.1 no_moments }
    ensures others { Relists seated.key.1 listing.old listing.new }
    ensures session { result ≡ seated.session }
{
    let mut seated = seated;
    unlist(listing, &mut seated.key, &mut seated.listed);
    seated.session
}

/// Takes a client out of the lists.
pub(crate) fn unlist_seated(listing: &mut Listing, seated: Seated)
    requires { IsListedAt listing.old seated.key.1 seated.listed }
    ensures at { IsListedAt listing.new seated.key.1 no_moments }
    ensures others { Relists seated.key.1 listing.old listing.new }
{
    unseat(listing, seated);
}

/// One call of a session, whose changes of rows are appended, and which is listed at its moments then. After a fault it is
/// listed as it says.
pub(crate) fn call_seated(
    seated: &mut BoxedSeat,
    listing: &mut Listing,
    alloc: Global,
    call: Call<'_>,
    on: On,
    changes: &mut Vec<Change>,
) -> Result<Reaction, SessionFault>
    requires listed { IsListedAt listing.old seated.old.key.1 seated.old.listed }
    requires asks { Asks call }
    requires may { MayTurn (event_of call) (state_of seated.old.session) }
    requires told { IsAllTold seated.old.key.1 seated.old.session }
    requires moments { IfSome (state_of seated.old.session) (λ s. seated.old.listed ≡ moments_of s seated.old.connection) }
    ensures at { IsListedAt listing.new seated.old.key.1 seated.new.listed }
    ensures others { Relists seated.old.key.1 listing.old listing.new }
    ensures key { seated.new.key.1 ≡ seated.old.key.1 }
    ensures turned { IfSome (state_of seated.old.session)
        (λ s. IsSeated (event_of call.entry) (on_of on) s seated.old.connection result seated.new) }
    ensures spelled { IfOk result (GivesSpelled (event_of call.entry)) }
    ensures wants { result ≡ Err SessionFault.NoMemory → IfSome (state_of seated.old.session)
        (λ s. WantsAt (event_of call.entry) (on_of on) s seated.old.connection) }
    ensures tells { OnOk result (TellsAgain seated.old.key.1 seated.old.session changes.old.items changes.new.items seated.new.session) }
{
    let seated = &mut *seated.block;
    let reaction = turn_and_tell(&mut seated.session, call, changes)?;
    let connection = land(on, seated.connection);
    let moments = moments_of(&seated.session, connection);
    seated.connection = connection;
    relist(listing, alloc, &mut seated.key, &mut seated.listed, moments)?;
    Ok(reaction)
}
