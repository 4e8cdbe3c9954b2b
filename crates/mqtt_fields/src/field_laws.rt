//! What holds of every field, whatever reads or writes it. The functions do nothing: their
//! contracts are the laws.

ghost use Rattle.mqtt_fields.specs.Field.{IsBytes};
ghost use Rattle.mqtt_fields.specs.Laws.{ReadAsSpelled, ReadFromTheLeft, TableIsStandard};
ghost use Rattle.mqtt_fields.specs.Vbi.{OneSpelling};

/// What is read is spelled so, and what is spelled so is read again, whatever follows.
#[tactic(auto, using(crate::proofs::FieldLaws::read_as_spelled))]
pub fn read_as_spelled()
    ensures { ReadAsSpelled }
{}

/// Bytes are below 256.
pub fn are_bytes(bytes: &[u8])
    ensures { IsBytes bytes.now }
{
    let _ = bytes;
}

/// A value or a fault that is read stays so, whatever follows: the first fault from the left is
/// found.
pub fn read_from_the_left()
    ensures { ReadFromTheLeft }
{}

/// A Variable Byte Integer is encoded in the fewest bytes, and what is written is its only such
/// encoding (MQTT 5.0, 1.5.5).
pub fn one_spelling()
    ensures { OneSpelling }
{}

/// Each property has the identifier, the type and the places of the standard's table (MQTT 5.0,
/// 2.2.2.2).
pub fn table_is_standard()
    ensures { TableIsStandard }
{}
