//! Reason Codes that are counted.

ghost use Rattle.std.specs.Prelude.{◌≡◌, ◌++◌, replicate, IfOk, OnOk};
ghost use Rattle.status_tally.specs.Codes.{behind_length, count_at, ended_by, more_of, one_of, refused_by, told_below};

use broker_sockets::Output;
use status_figures::CodeCount;
use std::alloc::{AllocError, Global};
use std::marker::Model;

/// The first byte of a CONNACK (MQTT 5.0, 3.2.1).
const CONNACK: u8 = 0x20;

/// That of a DISCONNECT (3.14.1).
const DISCONNECT: u8 = 0xE0;

/// The least Reason Code of a failure (2.4).
const FAILURE: u8 = 0x80;

/// So many codes there are.
const CODES: u16 = 256;

/// By the codes, how often each was given.
#[derive(Drop)]
pub(crate) struct Codes {
    counts: Vec<u64>,
}

impl Model for Codes {
    ghost use Rattle.std.specs.Prelude.{List, ℕ};

    ghost Value = { List ℕ };

    ghost view = { λ c. c.counts.items };
}

/// What follows the Remaining Length, whose last byte is below 128 (1.5.5).
fn behind_length(bytes: &[u8]) -> &[u8]
    ensures { result.now ≡ behind_length bytes.now }
{
    match bytes {
        [] => bytes,
        [b, rest @ ..] => { if *b < 128 { rest } else { behind_length(rest) } }
    }
}

/// The code of a CONNACK that refuses a client.
fn refused_by(bytes: &[u8]) -> Option<u8>
    ensures { result ≡ refused_by bytes.now }
{
    match bytes {
        [first, rest @ ..] if *first == CONNACK => match behind_length(rest) {
            [_flags, code, ..] if *code >= FAILURE => Some(*code),
            _ => None,
        },
        _ => None,
    }
}

/// The code of a DISCONNECT that ends a connection for a failure.
fn ended_by(bytes: &[u8]) -> Option<u8>
    ensures { result ≡ ended_by bytes.now }
{
    match bytes {
        [first, rest @ ..] if *first == DISCONNECT => match behind_length(rest) {
            [code, ..] if *code >= FAILURE => Some(*code),
            _ => None,
        },
        _ => None,
    }
}

/// A count of one code, if it was given.
fn push_one(told: &mut Vec<CodeCount>, code: u8, count: u64) -> Result<(), AllocError>
    ensures { OnOk result (told.new.items ≡ told.old.items ++ one_of code count) }
{
    if count > 0 {
        told.push(CodeCount { code, count })?;
    }
    Ok(())
}

impl Codes {
    ghost use Rattle.status_tally.specs.Codes.{ended_after, refused_after, with_code};

    /// No code was given.
    pub(crate) fn new(alloc: Global) -> Result<Codes, AllocError>
        ensures { IfOk result (λ codes. codes ≡ replicate 256 0) }
    {
        let mut counts = Vec::new(alloc);
        for _ in 0..CODES {
            counts.push(0)?;
        }
        Ok(Codes { counts })
    }

    /// How often a code was given.
    fn count(&self, code: u8) -> u64
        ensures { result ≡ count_at code self.now }
    {
        match self.counts.get(code as usize) {
            Some(count) => *count,
            None => 0,
        }
    }

    /// A code is given once more, if there is one.
    fn add(&mut self, code: Option<u8>)
        ensures { self.new ≡ with_code code self.old }
    {
        let Some(code) = code else { return };
        let count = self.count(code).saturating_add(1);
        if let Some(place) = self.counts.get_mut(code as usize) {
            *place = count;
        }
    }

    /// Counts the clients that are refused by what is given out.
    pub(crate) fn note_refused(&mut self, outputs: &[Output])
        ensures { self.new ≡ refused_after outputs.now self.old }
    {
        for output in outputs {
            if let Output::Send {
                connection: _,
                bytes,
            } = output
            {
                self.add(refused_by(bytes));
            }
        }
    }

    /// Counts the connections that are ended by it.
    pub(crate) fn note_ended(&mut self, outputs: &[Output])
        ensures { self.new ≡ ended_after outputs.now self.old }
    {
        for output in outputs {
            if let Output::Send {
                connection: _,
                bytes,
            } = output
            {
                self.add(ended_by(bytes));
            }
        }
    }

    /// The codes that were given, with their counts, the least first.
    pub(crate) fn told(&self, alloc: Global) -> Result<Vec<CodeCount>, AllocError>
        ensures { IfOk result (λ told. told.items ≡ told_below 256 self.now) }
    {
        let mut told = Vec::new(alloc);
        for code in 0..CODES {
            let code = code as u8;
            push_one(&mut told, code, self.count(code))?;
        }
        Ok(told)
    }
}
