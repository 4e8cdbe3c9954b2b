//! The line of a user that the program prints.

ghost use Rattle.std.specs.Prelude.{◌≡◌, ◌++◌, ◌∷◌, [], OnOk};
ghost use Rattle.std.specs.Io.KnownBytes.{Appends};
ghost use Rattle.door_users.specs.Writing.{line_for};
ghost use Rattle.cli_files.specs.Passwords.{is_password, password_in};

use crate::users::refused;
use cli_stops::{RunFault, Stop, answer_of};
use door_users::{DEFAULT_ITERATIONS, is_user_name, user_line};
use mqtt_fields::LONGEST_STRING;
use std::alloc::Global;
use std::io::{self, Input, Read, Write};
use std::random::RandomSource;

/// The bytes of standard input; where there are more than a password and a line feed only the first ones, and one too many.
fn read_input(rt: &HostRuntime) -> io::Result<Vec<u8>> {
    let mut bytes = Vec::new(rt.alloc());
    let mut input = rt.reader().take(LONGEST_STRING as u64 + 2);
    input.read_to_end(&mut bytes)?;
    Ok(bytes)
}

/// What stands before the line feed at the end, if there is one.
fn password_in(bytes: &[u8]) -> &[u8]
    ensures { result.now ≡ password_in bytes.now }
{
    match bytes.strip_suffix(b"\n") {
        Some(before) => before,
        None => bytes,
    }
}

/// Whether it has a byte, and no more than MQTT carries (MQTT 5.0, 1.5.6).
fn is_password(bytes: &[u8]) -> bool
    ensures { result ≡ is_password bytes.now }
{
    !bytes.is_empty() && bytes.len() <= LONGEST_STRING
}

/// The password on standard input, without the line feed at its end. `Stop::CommandLine` says why there is none.
pub fn read_password(rt: &HostRuntime) -> Result<Vec<u8>, Stop> {
    let alloc = rt.alloc();
    let bytes = match read_input(rt) {
        Ok(bytes) => bytes,
        Err(error) => return Err(refused(alloc, "standard input", &answer_of(&error))),
    };
    let password = password_in(&bytes);
    if !is_password(password) {
        let why = "a password has 1 to 65535 bytes";
        return Err(refused(alloc, "standard input", &why));
    }
    Ok(Vec::from_slice(alloc, password)?)
}

/// Bytes of the system's random source, as a salt. `Stop::CommandLine` says why there are none.
pub fn random_salt(rt: &HostRuntime) -> Result<[u8; 12], Stop> {
    let mut salt = [0; 12];
    match rt.fill_bytes(&mut salt) {
        Ok(()) => Ok(salt),
        Err(error) => Err(refused(rt.alloc(), "random bytes", &answer_of(&error))),
    }
}

/// Prints the line of a user of this name with this password and this salt, as a file of users has it.
fn put_line<W: Write>(
    alloc: Global,
    name: &str,
    password: &[u8],
    salt: &[u8; 12],
    out: &mut W,
) -> Result<(), Stop>
    ensures { OnOk result (Appends (W.contents out.old) (W.contents out.new) (line_for name.now password.now salt.now 101 ++ 10 ∷ [])) }
{
    let line = user_line(alloc, name, password, salt, DEFAULT_ITERATIONS)?;
    let line = line.as_str();
    match writeln!(out, "{line}") {
        Ok(()) => Ok(()),
        Err(_) => Err(Stop::Run(RunFault::Output)),
    }
}

/// Prints the line of a user of this name with this password and this salt, as a file of users has it. `Stop::CommandLine` says that no line has such a name.
pub fn print_user_line<W: Write>(
    alloc: Global,
    name: &str,
    password: &[u8],
    salt: &[u8; 12],
    out: &mut W,
) -> Result<(), Stop>
    ensures { OnOk result (Appends (W.contents out.old) (W.contents out.new) (line_for name.now password.now salt.now 101 ++ 10 ∷ [])) }
{
    if !is_user_name(name) {
        let why = "no line of a file of users can have this name";
        return Err(refused(alloc, name, &why));
    }
    put_line(alloc, name, password, salt, out)
}
