//! What a session keeps beside its copies, as a row's value.

ghost use Rattle.std.specs.Prelude.{◌≡◌, ◌<◌, ◌≤◌, ◌+◌, ◌++◌, true, length, take, vec_capacity, vec_len, OnErr, OnOk};
ghost use Rattle.std.specs.Option.{option_copied};
ghost use Rattle.mqtt_fields.specs.Reading.{Gives};
ghost use Rattle.qos_handshakes.specs.Incoming.{rise};
ghost use Rattle.session_rows.specs.Durable.{IsPublishableIf};
ghost use Rattle.session_rows.specs.Fields as fields;
ghost use Rattle.session_rows.specs.Reading.{Opens, whole};

use crate::field::{closed_at, identifiers_at, put_closed, put_identifiers};
use crate::will::{put_will_if, will_if_at};
use mqtt_fields::{FieldFault, NoMemory, put_u32, put_u64, u32_at, u64_at};
use mqtt_message::Will;
use row_store::RowFault;
use std::alloc::Global;
use std::marker::Model;

/// What a session keeps beside its copies.
#[derive(Drop)]
pub struct MainRow {
    /// The Session Expiry Interval, in seconds.
    pub expiry: u32,
    /// The moment since when it is closed; none while the client is connected.
    pub closed: Option<u64>,
    pub will: Option<Will>,
    /// The identifiers of unfinished incoming exchanges.
    pub incoming: Vec<u16>,
    /// The next place of its queue.
    pub next_place: u64,
}

impl Model for MainRow {
    ghost use Rattle.session_rows.specs.Fields.{Main};

    ghost Value = { Main };

    ghost view = { λ m. record { expiry = m.expiry; closed = m.closed; will = m.will; incoming = m.incoming.items; next_place = m.next_place } };
}

#[tactic(auto, unfolding(crate::specs::Fields::main))]
fn main_at(alloc: Global, bytes: &[u8]) -> Result<(MainRow, &[u8]), FieldFault>
    ensures { Gives (λ x. (x.0, x.1.now)) result (fields.main.at bytes.now) }
{
    let (expiry, rest) = u32_at(bytes)?;
    let (closed, rest) = closed_at(rest)?;
    let (will, rest) = will_if_at(alloc, rest)?;
    let (incoming, rest) = identifiers_at(alloc, rest)?;
    let (next_place, rest) = u64_at(rest)?;
    let main = MainRow {
        expiry,
        closed,
        will,
        incoming,
        next_place,
    };
    Ok((main, rest))
}

/// What a row's value says.
pub(crate) fn read_main(alloc: Global, bytes: &[u8]) -> Result<MainRow, RowFault>
    ensures { Opens (λ m. m) result (whole fields.main bytes.now) }
{
    match main_at(alloc, bytes) {
        Ok((main, [])) => Ok(main),
        Ok(_) => Err(RowFault::BadRow),
        Err(FieldFault::NoMemory) => Err(RowFault::NoMemory),
        Err(_) => Err(RowFault::BadRow),
    }
}

/// Appends the value of a session's row, or its beginning where memory runs out.
#[tactic(auto, unfolding(crate::specs::Fields::main))]
pub fn write_main(
    expiry: u32,
    closed: Option<u64>,
    will: Option<&Will>,
    incoming: &[u16],
    next_place: u64,
    out: &mut Vec<u8>,
) -> Result<(), NoMemory>
    requires will { IsPublishableIf (option_copied will) }
    requires incoming { rise incoming.now ≡ true }
    ensures ok { OnOk result (out.new.items ≡ out.old.items ++ fields.main.bytes (record { expiry = expiry; closed = closed; will = option_copied will.entry; incoming = incoming.now; next_place = next_place })) }
    ensures begins { take (length out.old.items) out.new.items ≡ out.old.items }
    ensures full { OnErr result (vec_capacity out.old < vec_len out.old + length (fields.main.bytes (record { expiry = expiry; closed = closed; will = option_copied will.entry; incoming = incoming.now; next_place = next_place }))) }
    ensures capacity { vec_capacity out.old ≤ vec_capacity out.new }
{
    put_u32(expiry, out)?;
    put_closed(closed, out)?;
    put_will_if(will, out)?;
    put_identifiers(incoming, out)?;
    put_u64(next_place, out)
}
