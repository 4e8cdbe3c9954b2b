//! One user and the hash of its password.

ghost use Rattle.std.specs.Prelude.{◌≡◌, ◌<◌, ◌↔◌, ◌∷◌, [], ℕ, IfOk, IsTrue, false, nat_eq};
ghost use Rattle.std.specs.List.{after_first, before_first, starts_with};
ghost use Rattle.mqtt_access.specs.Pbkdf2.{derived_key};
ghost use Rattle.door_users.specs.Accounts.{account_in, after_kind, bytes_in, carried, hash_in, is_colon, is_dollar, iterations_in, name_in, secret_in};
ghost use Rattle.door_users.specs.Counts.{IsRead};
ghost use Rattle.door_users.specs.Outcomes.{Gives};

use crate::fault::{LineFlaw, Unread};
use crate::password::MOST_ITERATIONS;
use base64::DecodeAllocError;
use base64::engine::general_purpose::STANDARD;
use mqtt_access::{pbkdf2_hmac_sha512, same_bytes};
use mqtt_fields::{FieldFault, Text};
use std::alloc::Global;
use std::marker::Model;

/// A user name, and the hash of its password with a salt after so many iterations of PBKDF2.
#[derive(Debug, Drop)]
pub struct Account {
    name: Text,
    iterations: u32,
    salt: Vec<u8>,
    hash: Vec<u8>,
}

impl Model for Account {
    ghost use Rattle.std.specs.Prelude.{◌<◌};
    ghost use Rattle.door_users.specs.Accounts.{Account as AccountValue};

    ghost Value = { AccountValue };

    ghost view = { λ a. record { name = a.name; iterations = a.iterations; salt = a.salt.items; hash = a.hash.items } };

    ghost invariant = { λ a. 0 < a.iterations };
}

/// What stands before the first colon, and after it.
fn colon_parts(line: &str) -> (&str, &str)
    ensures before { result.0.now ≡ before_first is_colon line.now }
    ensures after { result.1.now ≡ after_first is_colon line.now }
{
    line.split_once(':').unwrap_or((line, ""))
}

/// What stands before the first `$`, and after it.
fn dollar_parts(text: &str) -> (&str, &str)
    ensures before { result.0.now ≡ before_first is_dollar text.now }
    ensures after { result.1.now ≡ after_first is_dollar text.now }
{
    text.split_once('$').unwrap_or((text, ""))
}

/// A text, as MQTT carries it; else this flaw.
#[tactic(auto, using(crate::proofs::TextLaws::is_text, crate::proofs::TextLaws::no_text))]
pub(crate) fn text_of(alloc: Global, text: &str, flaw: LineFlaw) -> Result<Text, Unread>
    ensures { Gives (λ t. t) result (carried flaw text.now) }
{
    match Text::new(alloc, text) {
        Ok(text) => Ok(text),
        Err(fault) => {
            if fault == FieldFault::Malformed {
                return Err(Unread::Flaw(flaw));
            }
            Err(Unread::NoMemory)
        }
    }
}

/// A user name.
fn name_of(alloc: Global, name: &str) -> Result<Text, Unread>
    ensures { Gives (λ t. t) result (name_in name.now) }
{
    if name.is_empty() {
        return Err(Unread::Flaw(LineFlaw::NoName));
    }
    text_of(alloc, name, LineFlaw::BadName)
}

/// What stands after the sign of PBKDF2.
fn after_kind(hash: &str) -> Result<&str, Unread>
    ensures { Gives (λ t. t.now) result (after_kind hash.now) }
{
    match hash.strip_prefix("$7$") {
        Some(rest) => Ok(rest),
        None => Err(Unread::Flaw(LineFlaw::NotPbkdf2)),
    }
}

/// A number that is read, if it is one of iterations.
#[tactic(auto, using(crate::proofs::CountLaws::count_read, crate::proofs::CountLaws::count_few, crate::proofs::CountLaws::count_many))]
fn bounded(text: &str, number: u32) -> Result<u32, Unread>
    requires zero { starts_with nat_eq text.now (48 ∷ []) ≡ false }
    requires value { IsRead text.now number }
    ensures exact { Gives (λ n. n) result (iterations_in text.now) }
    ensures some { IfOk result (λ n. 0 < n) }
{
    if number < 1 {
        return Err(Unread::Flaw(LineFlaw::BadIterations));
    }
    if MOST_ITERATIONS < number {
        return Err(Unread::Flaw(LineFlaw::BadIterations));
    }
    Ok(number)
}

/// A number of iterations.
#[tactic(auto, using(crate::proofs::CountLaws::zero_first, crate::proofs::CountLaws::plus_first))]
fn iterations_of(text: &str) -> Result<u32, Unread>
    ensures exact { Gives (λ n. n) result (iterations_in text.now) }
    ensures some { IfOk result (λ n. 0 < n) }
{
    if text.starts_with("0") {
        return Err(Unread::Flaw(LineFlaw::BadIterations));
    }
    if text.starts_with("+") {
        return Err(Unread::Flaw(LineFlaw::BadIterations));
    }
    match text.parse::<u32>() {
        Ok(number) => bounded(text, number),
        Err(_) => Err(Unread::Flaw(LineFlaw::BadIterations)),
    }
}

/// Bytes in base64; else this flaw.
#[tactic(auto, using(crate::proofs::ByteLaws::decoded, crate::proofs::ByteLaws::undecoded))]
fn bytes_of(alloc: Global, text: &str, flaw: LineFlaw) -> Result<Vec<u8>, Unread>
    ensures { Gives (λ v. v.items) result (bytes_in flaw text.now) }
{
    match STANDARD.decode(alloc, text.as_bytes()) {
        Ok(bytes) => Ok(bytes),
        Err(DecodeAllocError::DecodeError(_)) => Err(Unread::Flaw(flaw)),
        Err(DecodeAllocError::OutOfMemory) => Err(Unread::NoMemory),
    }
}

/// A hash of 64 bytes.
fn hash_of(alloc: Global, text: &str) -> Result<Vec<u8>, Unread>
    ensures { Gives (λ v. v.items) result (hash_in text.now) }
{
    let bytes = bytes_of(alloc, text, LineFlaw::BadHash)?;
    if bytes.len() != 64 {
        return Err(Unread::Flaw(LineFlaw::BadHash));
    }
    Ok(bytes)
}

impl Account {
    /// An account, by its iterations, salt and hash.
    fn of_secret(alloc: Global, name: Text, text: &str) -> Result<Account, Unread>
        ensures { Gives (λ a. a) result (secret_in name text.now) }
    {
        let (count, rest) = dollar_parts(text);
        let (salt, hash) = dollar_parts(rest);
        let iterations = iterations_of(count)?;
        let salt = bytes_of(alloc, salt, LineFlaw::BadSalt)?;
        let hash = hash_of(alloc, hash)?;
        Ok(Account {
            name,
            iterations,
            salt,
            hash,
        })
    }

    /// The account of a line.
    pub(crate) fn of_line(alloc: Global, line: &str) -> Result<Account, Unread>
        ensures { Gives (λ a. a) result (account_in line.now) }
    {
        let (name, hash) = colon_parts(line);
        let name = name_of(alloc, name)?;
        let text = after_kind(hash)?;
        Account::of_secret(alloc, name, text)
    }

    /// An account whose password nobody knows.
    pub(crate) fn decoy(alloc: Global, iterations: u32) -> Result<Account, Unread>
        requires { 0 < iterations }
    {
        let name = text_of(alloc, "", LineFlaw::NoName)?;
        let salt = Vec::from_slice(alloc, &[0; 12])?;
        let hash = Vec::from_slice(alloc, &[0; 64])?;
        Ok(Account {
            name,
            iterations,
            salt,
            hash,
        })
    }

    /// The user name.
    pub fn name(&self) -> &str
        ensures { result.now ≡ self.now.name }
    {
        self.name.as_str()
    }

    /// How many iterations a password takes.
    pub fn iterations(&self) -> u32
        ensures is { result ≡ self.now.iterations }
        ensures some { 0 < self.now.iterations }
    {
        self.iterations
    }

    /// Whether this is the user's password: its derived key is the hash.
    pub fn has_password(&self, password: &[u8]) -> bool
        ensures { IsTrue result ↔ (derived_key password.now self.now.salt self.now.iterations ≡ self.now.hash) }
    {
        let key = pbkdf2_hmac_sha512(password, &self.salt, self.iterations);
        same_bytes(&key, &self.hash)
    }
}
