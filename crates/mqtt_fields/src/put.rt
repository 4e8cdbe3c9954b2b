//! Integers and runs put at the end of some bytes.

ghost use Rattle.std.specs.Prelude.{◌≡◌, ◌+◌, ◌<◌, ◌≤◌, ◌^◌, ◌++◌, length, vec_len, vec_capacity, OnOk, OnErr};
ghost use Rattle.std.specs.Int.{w8, w16, w32, w64};
ghost use Rattle.mqtt_fields.specs.Numbers.{number, long};

use crate::fault::NoMemory;
use byteorder::{BigEndian, ByteOrder};

/// Appends a byte.
pub fn put_u8(n: u8, out: &mut Vec<u8>) -> Result<(), NoMemory>
    ensures ok { OnOk result (out.new.items ≡ out.old.items ++ (number w8).bytes n) }
    ensures err { OnErr result (out.new.items ≡ out.old.items) }
    ensures full { OnErr result (vec_capacity out.old < vec_len out.old + 1) }
    ensures capacity { vec_capacity out.old ≤ vec_capacity out.new }
{
    out.push(n)?;
    Ok(())
}

/// Appends a Two Byte Integer.
pub fn put_u16(n: u16, out: &mut Vec<u8>) -> Result<(), NoMemory>
    ensures ok { OnOk result (out.new.items ≡ out.old.items ++ (number w16).bytes n) }
    ensures err { OnErr result (out.new.items ≡ out.old.items) }
    ensures full { OnErr result (vec_capacity out.old < vec_len out.old + 2) }
    ensures capacity { vec_capacity out.old ≤ vec_capacity out.new }
{
    let mut bytes = [0; 2];
    BigEndian::write_u16(&mut bytes, n);
    out.extend_from_slice(&bytes)?;
    Ok(())
}

/// Appends a Four Byte Integer.
pub fn put_u32(n: u32, out: &mut Vec<u8>) -> Result<(), NoMemory>
    ensures ok { OnOk result (out.new.items ≡ out.old.items ++ (number w32).bytes n) }
    ensures err { OnErr result (out.new.items ≡ out.old.items) }
    ensures full { OnErr result (vec_capacity out.old < vec_len out.old + 4) }
    ensures capacity { vec_capacity out.old ≤ vec_capacity out.new }
{
    let mut bytes = [0; 4];
    BigEndian::write_u32(&mut bytes, n);
    out.extend_from_slice(&bytes)?;
    Ok(())
}

/// Appends an integer of eight bytes.
pub fn put_u64(n: u64, out: &mut Vec<u8>) -> Result<(), NoMemory>
    ensures ok { OnOk result (out.new.items ≡ out.old.items ++ (number w64).bytes n) }
    ensures err { OnErr result (out.new.items ≡ out.old.items) }
    ensures full { OnErr result (vec_capacity out.old < vec_len out.old + 8) }
    ensures capacity { vec_capacity out.old ≤ vec_capacity out.new }
{
    let mut bytes = [0; 8];
    BigEndian::write_u64(&mut bytes, n);
    out.extend_from_slice(&bytes)?;
    Ok(())
}

/// Appends bytes, with their number before them in four bytes.
pub fn put_long(bytes: &[u8], out: &mut Vec<u8>) -> Result<(), NoMemory>
    requires { length bytes.now < 2 ^ 32 }
    ensures ok { OnOk result (out.new.items ≡ out.old.items ++ long.bytes bytes.now) }
    ensures err { OnErr result (out.new.items ≡ out.old.items) }
    ensures full { OnErr result (vec_capacity out.old < vec_len out.old + (4 + length bytes.now)) }
    ensures capacity { vec_capacity out.old ≤ vec_capacity out.new }
{
    out.reserve(4 + bytes.len())?;
    out.extend_from_slice(&(bytes.len() as u32).to_be_bytes())
        .unwrap();
    out.extend_from_slice(bytes).unwrap();
    Ok(())
}
