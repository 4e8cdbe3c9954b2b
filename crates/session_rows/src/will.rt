//! Wills in rows.

ghost use Rattle.std.specs.Prelude.{◌≡◌, ◌<◌, ◌≤◌, ◌+◌, ◌++◌, length, take, vec_capacity, vec_len, OnErr, OnOk};
ghost use Rattle.std.specs.Option.{option_copied};
ghost use Rattle.mqtt_fields.specs.Reading.{Gives};
ghost use Rattle.mqtt_message.specs.Spelling.{optional};
ghost use Rattle.session_rows.specs.Durable.{IsPublishableIf};
ghost use Rattle.mqtt_message.specs.Accepted.{IsPublishable};
ghost use Rattle.session_rows.specs.Fields as fields;

use crate::field::{payload_at, qos_at};
use mqtt_fields::{
    FieldFault, NoMemory, Place, Text, properties_of, put_long, put_u8, write_properties,
};
use mqtt_message::{Will, flag_at, put_flag};
use std::alloc::Global;

#[tactic(auto, unfolding(crate::specs::Fields::will))]
fn will_at(alloc: Global, bytes: &[u8]) -> Result<(Will, &[u8]), FieldFault>
    ensures { Gives (λ x. (x.0, x.1.now)) result (fields.will.at bytes.now) }
{
    let (topic, rest) = Text::at(alloc, bytes)?;
    let (payload, rest) = payload_at(alloc, rest)?;
    let (properties, rest) = properties_of(alloc, Place::Will, rest)?;
    let (qos, rest) = qos_at(rest)?;
    let (retain, rest) = flag_at(rest)?;
    let will = Will {
        retain,
        qos,
        properties,
        topic,
        payload,
    };
    Ok((will, rest))
}

/// A will that may be missing.
pub(crate) fn will_if_at(alloc: Global, bytes: &[u8]) -> Result<(Option<Will>, &[u8]), FieldFault>
    ensures { Gives (λ x. (x.0, x.1.now)) result ((optional fields.will).at bytes.now) }
{
    let (present, rest) = flag_at(bytes)?;
    if !present {
        return Ok((None, rest));
    }
    let (will, rest) = will_at(alloc, rest)?;
    Ok((Some(will), rest))
}

#[tactic(auto, unfolding(crate::specs::Fields::will))]
fn put_will(will: &Will, out: &mut Vec<u8>) -> Result<(), NoMemory>
    requires { IsPublishable will.now }
    ensures ok { OnOk result (out.new.items ≡ out.old.items ++ fields.will.bytes will.now) }
    ensures begins { take (length out.old.items) out.new.items ≡ out.old.items }
    ensures full { OnErr result (vec_capacity out.old < vec_len out.old + length (fields.will.bytes will.now)) }
    ensures capacity { vec_capacity out.old ≤ vec_capacity out.new }
{
    will.topic.write(out)?;
    put_long(will.payload.as_bytes(), out)?;
    write_properties(&will.properties, out)?;
    put_u8(will.qos.number(), out)?;
    put_flag(will.retain, out)
}

/// Appends a will that may be missing, or its beginning where memory runs out.
pub(crate) fn put_will_if(will: Option<&Will>, out: &mut Vec<u8>) -> Result<(), NoMemory>
    requires { IsPublishableIf (option_copied will) }
    ensures ok { OnOk result (out.new.items ≡ out.old.items ++ (optional fields.will).bytes (option_copied will.entry)) }
    ensures begins { take (length out.old.items) out.new.items ≡ out.old.items }
    ensures full { OnErr result (vec_capacity out.old < vec_len out.old + length ((optional fields.will).bytes (option_copied will.entry))) }
    ensures capacity { vec_capacity out.old ≤ vec_capacity out.new }
{
    put_flag(will.is_some(), out)?;
    match will {
        None => Ok(()),
        Some(will) => put_will(will, out),
    }
}
