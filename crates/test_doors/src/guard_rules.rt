//! Who may do what, in these examples.

ghost use Rattle.std.specs.Prelude.{◌≡◌, IfOk};
ghost use Rattle.test_doors.specs.GuardRules.{begins, password_of, rules};

use door_packets::{Access, Admission, Login};
use mqtt_fields::{Blob, NoMemory, Text};
use std::alloc::Global;

/// By the first letter of a name.
#[derive(Drop)]
pub struct Rules {
    pub anonymous: bool,
}

fn begins(letter: u8, text: &[u8]) -> bool
    ensures { result ≡ begins letter text.now }
{
    match text {
        [] => false,
        [first, ..] => *first == letter,
    }
}

fn password_of(password: &Option<Blob>) -> Admission
    ensures { result ≡ password_of password.now }
{
    match password {
        None => Admission::WrongPassword,
        Some(password) => {
            if begins(b'p', password.as_bytes()) {
                Admission::Admitted
            } else {
                Admission::WrongPassword
            }
        }
    }
}

impl Access for Rules {
    ghost use Rattle.test_doors.specs.GuardRules.{rules};

    ghost rights = { λ r. rules r.anonymous };

    fn admission(
        &self,
        _alloc: Global,
        user: &Option<Text>,
        password: &Option<Blob>,
    ) -> Result<Admission, NoMemory> {
        match user {
            None => {
                if self.anonymous {
                    Ok(Admission::Admitted)
                } else {
                    Ok(Admission::NoName)
                }
            }
            Some(_) => Ok(password_of(password)),
        }
    }

    fn may_connect(&self, login: &Login) -> bool {
        begins(b'c', login.client.as_str().as_bytes())
    }

    fn may_write(&self, _login: &Login, topic: &str) -> bool {
        begins(b'a', topic.as_bytes())
    }

    fn may_read(&self, _login: &Login, topic: &str) -> bool {
        begins(b'b', topic.as_bytes())
    }

    fn may_subscribe(&self, _login: &Login, filter: &str) -> bool {
        begins(b'b', filter.as_bytes())
    }
}
