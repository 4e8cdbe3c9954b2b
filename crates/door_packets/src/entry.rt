//! CONNECT.

ghost use Rattle.std.specs.Prelude.{◌≡◌, IfOk};
ghost use Rattle.door_packets.specs.Packets.{connect_code, is_will_allowed, login_of};

use crate::{Access, Admission, Login};
use mqtt_fields::NoMemory;
use mqtt_packets::reason::{BAD_USER_NAME_OR_PASSWORD, NOT_AUTHORIZED};
use mqtt_packets::{Connect, Will};
use std::alloc::Global;

/// The names in a CONNECT.
pub(crate) fn login_of(alloc: Global, connect: &Connect) -> Result<Login, NoMemory>
    ensures { IfOk result (λ l. l ≡ login_of connect.now) }
{
    let user = match &connect.user_name {
        None => None,
        Some(user) => Some(user.copy(alloc)?),
    };
    Ok(Login {
        user,
        client: connect.client.copy(alloc)?,
    })
}

/// Whether the topic of a will may be written, if there is one.
fn is_will_allowed<A: Access>(access: &A, login: &Login, will: &Option<Will>) -> bool
    ensures { result ≡ is_will_allowed (A.rights access.now) login.now will.now }
{
    match will {
        None => true,
        Some(will) => access.may_write(login, will.topic.as_str()),
    }
}

/// The Reason Code with which a client isn't let in.
pub(crate) fn connect_code<A: Access>(
    alloc: Global,
    access: &A,
    login: &Login,
    connect: &Connect,
) -> Result<Option<u8>, NoMemory>
    requires { login.now ≡ login_of connect.now }
    ensures { IfOk result (λ code. code ≡ connect_code (A.rights access.now) connect.now) }
{
    match access.admission(alloc, &connect.user_name, &connect.password)? {
        Admission::WrongPassword => Ok(Some(BAD_USER_NAME_OR_PASSWORD)),
        Admission::NoName => Ok(Some(NOT_AUTHORIZED)),
        Admission::Admitted => {
            if access.may_connect(login) && is_will_allowed(access, login, &connect.will) {
                Ok(None)
            } else {
                Ok(Some(NOT_AUTHORIZED))
            }
        }
    }
}
