//! What users may do.

ghost use Rattle.std.specs.Prelude.{◌≡◌, IfOk};

use mqtt_fields::{Blob, NoMemory, Text};
use std::alloc::Global;

/// What comes of the user name and the password of a CONNECT (MQTT 5.0, 3.1.3.5 and 3.1.3.6).
#[derive(Clone, Copy, Debug, PartialEq, Eq)]
pub enum Admission {
    /// The client is let in: the password is that of the user, or there is no user name and none is asked for.
    Admitted,
    /// There is no such user, or the password is another one.
    WrongPassword,
    /// There is no user name, and one is asked for.
    NoName,
}

/// Under which names a client was let in.
#[derive(Drop)]
pub struct Login {
    /// The user name of its CONNECT.
    pub user: Option<Text>,
    /// The client identifier of its CONNECT; empty where the client left it to the server, and then no rule that names the identifier
    /// gives anything.
    pub client: Text,
}

impl Login {
    /// Names equal to these.
    pub fn copy(&self, alloc: Global) -> Result<Login, NoMemory>
        ensures { IfOk result (λ x. x ≡ self.now) }
    {
        let user = match &self.user {
            None => None,
            Some(user) => Some(user.copy(alloc)?),
        };
        Ok(Login {
            user,
            client: self.client.copy(alloc)?,
        })
    }
}

/// Who is let in, and what each may do. The answers don't change while a program runs.
///
/// `rights` is what the methods answer, as functions of their arguments.
pub trait Access {
    ghost use Rattle.door_packets.specs.Rights.{Rights};

    ghost rights: { Self → Rights };

    /// Whether a client with this user name and this password is let in.
    fn admission(
        &self,
        alloc: Global,
        user: &Option<Text>,
        password: &Option<Blob>,
    ) -> Result<Admission, NoMemory>
        ensures { IfOk result (λ a. a ≡ (rights self.now).admission user.now password.now) };

    /// Whether this user may connect under this identifier.
    fn may_connect(&self, login: &Login) -> bool
        ensures { result ≡ (rights self.now).may_connect login.now };

    /// Whether it may publish to this topic.
    fn may_write(&self, login: &Login, topic: &str) -> bool
        ensures { result ≡ (rights self.now).may_write login.now topic.now };

    /// Whether it may receive a message of this topic.
    fn may_read(&self, login: &Login, topic: &str) -> bool
        ensures { result ≡ (rights self.now).may_read login.now topic.now };

    /// Whether it may subscribe to this filter, as it stands in SUBSCRIBE, with `$share` and its name where these are there.
    fn may_subscribe(&self, login: &Login, filter: &str) -> bool
        ensures { result ≡ (rights self.now).may_subscribe login.now filter.now };
}
