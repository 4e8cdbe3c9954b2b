//! The fields of MQTT 5.0 packets: integers, strings, binary data and property blocks (MQTT 5.0,
//! 1.5 and 2.2.2), and the levels and options that packets hold.
//!
//! A reader answers the value at the front of some bytes, or the first fault from the left: those
//! named `_at` or `_of` with the bytes after it, `read` and `take_` with how many bytes it takes.
//! Writers append, and change nothing where memory runs out; with room to spare they can't fail.
#![tactic(auto)]

mod blob;
mod block;
mod fault;
mod field_laws;
pub mod identifier;
mod length;
mod limits;
mod number;
mod options;
mod properties;
mod put;
mod table;
mod take;
mod text;
mod value;
mod vbi;

pub use blob::Blob;
pub use block::{properties_of, read_properties, write_properties};
pub use fault::{FieldFault, NoMemory};
pub use field_laws::{
    are_bytes, one_spelling, read_as_spelled, read_from_the_left, table_is_standard,
};
pub use length::properties_len;
pub use limits::{
    LONGEST_CLIENT, LONGEST_FRAME, LONGEST_PACKET, LONGEST_STRING, LONGEST_VALUE, MOST_EXCHANGES,
    NEVER_ENDS, NUMBERS_END,
};
pub use number::{long_at, run_at, u8_at, u16_at, u32_at, u64_at};
pub use options::{Qos, SubscriptionOptions};
pub use properties::Properties;
pub use put::{put_long, put_u8, put_u16, put_u32, put_u64};
pub use table::{Place, ValueKind};
pub use take::{take_long, take_u8, take_u16, take_u32, take_u64};
pub use text::Text;
pub use value::{Property, Value};
pub use vbi::{Vbi, vbi_at, vbi_len};
