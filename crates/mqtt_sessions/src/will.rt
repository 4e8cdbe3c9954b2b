//! A will in a block of its own.

ghost use Rattle.std.specs.Prelude.{◌≡◌, IfOk, IsSome, OnErr};

use mqtt_fields::NoMemory;
use mqtt_message::Will;
use std::alloc::Global;
use std::marker::Model;
use std::ops::Deref;

/// A will in a block of its own: most sessions have none, and are smaller so.
#[derive(Drop)]
pub(crate) struct BoxedWill {
    block: Box<Will>,
}

impl Model for BoxedWill {
    ghost use Rattle.mqtt_packets.specs.declared.connect.Will.{Will};

    ghost Value = { Will };

    ghost view = { λ b. b.block.value };
}

impl Deref for BoxedWill {
    type Target = Will;

    ghost deref_gives = { λ b x. x ≡ b };

    fn deref(&self) -> &Will
        ensures { result.now ≡ self.now }
    {
        &self.block
    }
}

/// The same will, if there is one.
pub(crate) fn boxed(alloc: Global, will: Option<Will>) -> Result<Option<BoxedWill>, NoMemory>
    ensures same { IfOk result (λ w. w ≡ will) }
    ensures need { OnErr result (IsSome will) }
{
    let Some(will) = will else {
        return Ok(None);
    };
    let Ok(block) = Box::new(alloc, will) else {
        return Err(NoMemory);
    };
    Ok(Some(BoxedWill { block }))
}
