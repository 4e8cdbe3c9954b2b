//! Properties in order (MQTT 5.0, 2.2.2).

ghost use Rattle.std.specs.Prelude.{◌≡◌, ◌==◌, ◌++◌, ◌∷◌, List, [], length, IfOk, OnOk, OnErr, option_map};
ghost use Rattle.std.specs.Option.{option_copied};
ghost use Rattle.mqtt_fields.specs.declared.value.Property.{Property};
ghost use Rattle.mqtt_fields.specs.Properties.{first_value, first_byte, first_two, first_four, first_vbi, first_text, first_blob};

use crate::blob::Blob;
use crate::fault::NoMemory;
use crate::text::Text;
use crate::value::{Property, Value};
use std::alloc::Global;
use std::marker::Model;

/// Properties in the order in which they stand. Contracts see the list.
#[derive(Debug)]
pub struct Properties {
    pub(crate) items: Vec<Property>,
}

impl Drop for Properties {
    fn drop(self) {
        let Properties { items: _items } = self;
    }
}

impl Model for Properties {
    ghost Value = { List Property };

    ghost view = { λ p. p.items.items };
}

/// The value of the first of these with this identifier.
fn first_in(items: &[Property], id: u8) -> Option<&Value>
    ensures { option_copied result ≡ first_value id items.now }
{
    match items {
        [] => None,
        [p, rest @ ..] => {
            if p.id == id {
                Some(&p.value)
            } else {
                first_in(rest, id)
            }
        }
    }
}

impl Properties {
    /// No properties.
    pub fn new(alloc: Global) -> Self
        ensures { result ≡ [] }
    {
        Properties {
            items: Vec::new(alloc),
        }
    }

    /// Appends a property.
    pub fn push(&mut self, property: Property) -> Result<(), NoMemory>
        ensures ok { OnOk result (self.new ≡ self.old ++ property ∷ []) }
        ensures err { OnErr result (self.new ≡ self.old) }
    {
        self.items.push(property)?;
        Ok(())
    }

    /// The properties.
    pub fn as_slice(&self) -> &[Property]
        ensures { result.now ≡ self.now }
    {
        self.items.as_slice()
    }

    /// How many properties there are.
    pub fn len(&self) -> usize
        ensures { result ≡ length self.now }
    {
        self.items.len()
    }

    /// Whether there is none.
    pub fn is_empty(&self) -> bool
        ensures { result ≡ (length self.now == 0) }
    {
        self.items.is_empty()
    }

    /// The value of the first property with this identifier.
    pub fn value(&self, id: u8) -> Option<&Value>
        ensures { option_copied result ≡ first_value id self.now }
    {
        first_in(self.as_slice(), id)
    }

    /// The first such property's value, if that is a byte.
    pub fn byte(&self, id: u8) -> Option<u8>
        ensures { result ≡ first_byte id self.now }
    {
        match self.value(id) {
            Some(Value::Byte(n)) => Some(*n),
            _ => None,
        }
    }

    /// The first such property's value, if that is a Two Byte Integer.
    pub fn two(&self, id: u8) -> Option<u16>
        ensures { result ≡ first_two id self.now }
    {
        match self.value(id) {
            Some(Value::Two(n)) => Some(*n),
            _ => None,
        }
    }

    /// The first such property's value, if that is a Four Byte Integer.
    pub fn four(&self, id: u8) -> Option<u32>
        ensures { result ≡ first_four id self.now }
    {
        match self.value(id) {
            Some(Value::Four(n)) => Some(*n),
            _ => None,
        }
    }

    /// The first such property's value, if that is a Variable Byte Integer.
    pub fn vbi(&self, id: u8) -> Option<u32>
        ensures { result ≡ first_vbi id self.now }
    {
        match self.value(id) {
            Some(Value::Vbi(n)) => Some(*n),
            _ => None,
        }
    }

    /// The first such property's value, if that is a string.
    pub fn text(&self, id: u8) -> Option<&Text>
        ensures { option_copied result ≡ first_text id self.now }
    {
        match self.value(id) {
            Some(Value::Text(t)) => Some(t),
            _ => None,
        }
    }

    /// The first such property's value, if that is binary data.
    pub fn blob(&self, id: u8) -> Option<&Blob>
        ensures { option_copied result ≡ first_blob id self.now }
    {
        match self.value(id) {
            Some(Value::Blob(b)) => Some(b),
            _ => None,
        }
    }

    /// Properties equal to these.
    pub fn copy(&self, alloc: Global) -> Result<Properties, NoMemory>
        ensures { IfOk result (λ ps. ps ≡ self.now) }
    {
        let mut items = Vec::with_capacity(alloc, self.len())?;
        for p in &self.items {
            items.push(p.copy(alloc)?)?;
        }
        Ok(Properties { items })
    }
}
