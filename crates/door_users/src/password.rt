//! Lines of a file of users.

ghost use Rattle.std.specs.Prelude.{◌≡◌, ◌<◌, ◌≤◌, IfOk};
ghost use Rattle.std.specs.String.{string_bytes};
ghost use Rattle.std.specs.List.{list_any};
ghost use Rattle.door_users.specs.Writing.{head_of, is_mark, is_user_name, line_for, line_of};

use base64::engine::general_purpose::STANDARD;
use mqtt_access::pbkdf2_hmac_sha512;
use std::alloc::{AllocError, Global};

/// The most iterations that a line may ask for.
pub const MOST_ITERATIONS: u32 = 100000;

/// The iterations of a line that is made here, and those that an unknown user name takes.
pub const DEFAULT_ITERATIONS: u32 = 101;

/// Whether a line of a file of users may have this name: it isn't empty, has at most 65,535 bytes and no colon, line feed or U+0000, doesn't begin with `#`,
/// and no white space stands at its ends.
pub fn is_user_name(name: &str) -> bool
    ensures { result ≡ is_user_name name.now }
{
    !name.is_empty()
        && name.len() < 65_536
        && !name.starts_with("#")
        && name.trim() == name
        && !has_mark(name.as_bytes())
}

/// Whether there is a colon, a line feed or U+0000.
fn has_mark(name: &[u8]) -> bool
    ensures { result ≡ list_any is_mark name.now }
{
    name.iter().any(|b| *b == b':' || *b == b'\n' || *b == 0)
}

/// The name and the iterations, with the sign of PBKDF2 between them.
fn head_of(alloc: Global, name: &str, iterations: u32) -> Result<String, AllocError>
    ensures { IfOk result (λ head. string_bytes head ≡ head_of name.now iterations) }
{
    format!(in alloc; "{name}:$7${iterations}")
}

/// The line with this salt and this hash behind its head.
fn line_of(alloc: Global, head: &str, salt: &str, hash: &str) -> Result<String, AllocError>
    ensures { IfOk result (λ line. string_bytes line ≡ line_of head.now salt.now hash.now) }
{
    format!(in alloc; "{head}${salt}${hash}")
}

/// The line of a user: its name, and the hash of its password with this salt.
pub fn user_line(
    alloc: Global,
    name: &str,
    password: &[u8],
    salt: &[u8; 12],
    iterations: u32,
) -> Result<String, AllocError>
    requires { 0 < iterations }
    ensures { IfOk result (λ line. string_bytes line ≡ line_for name.now password.now salt.now iterations) }
{
    let key = pbkdf2_hmac_sha512(password, salt, iterations);
    let salt = STANDARD.encode(alloc, salt)?;
    let hash = STANDARD.encode(alloc, &key)?;
    let head = head_of(alloc, name, iterations)?;
    line_of(alloc, head.as_str(), salt.as_str(), hash.as_str())
}
