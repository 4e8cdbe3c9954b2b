//! Patterns, which are for all clients.

ghost use Rattle.std.specs.Prelude.{◌≡◌, ℕ, List, Option, OnOk, false};
ghost use Rattle.std.specs.Option.{option_copied};
ghost use Rattle.mqtt_access.specs.Index.{IsMorePatterns, forbids, gives};
ghost use Rattle.mqtt_access.specs.Rules.{Asked, asked_of, is_deny};

use crate::rule::{Access, Request, TopicRule};
use mqtt_fields::NoMemory;
use std::alloc::Global;

/// Patterns: those that give something, and those that forbid.
#[derive(Debug, Drop)]
pub(crate) struct Patterns {
    giving: Vec<TopicRule>,
    denying: Vec<TopicRule>,
}

fn is_deny(access: Access) -> bool
    ensures { result ≡ is_deny access }
{
    match access {
        Access::Deny => true,
        Access::Read => false,
        Access::Write => false,
        Access::ReadWrite => false,
    }
}

impl Patterns {
    /// No patterns.
    pub(crate) fn new(alloc: Global) -> Patterns
        ensures gives { (user : Option (List ℕ)) (client : List ℕ) (asked : Asked) → gives result user client asked ≡ false }
        ensures forbids { (user : Option (List ℕ)) (client : List ℕ) (asked : Asked) → forbids result user client asked ≡ false }
    {
        Patterns {
            giving: Vec::new(alloc),
            denying: Vec::new(alloc),
        }
    }

    /// Adds a pattern.
    #[tactic(auto, using(crate::proofs::Indexing::put_giving, crate::proofs::Indexing::put_denying))]
    pub(crate) fn add(&mut self, rule: TopicRule) -> Result<(), NoMemory>
        ensures { OnOk result (IsMorePatterns rule self.old self.new) }
    {
        if is_deny(rule.access) {
            self.denying.push(rule)?;
        } else {
            self.giving.push(rule)?;
        }
        Ok(())
    }

    /// Whether some pattern gives a client what it asks for.
    pub(crate) fn gives(&self, user: Option<&str>, client: &str, request: Request) -> bool
        ensures { result ≡ gives self.now (option_copied user.entry) client.now (asked_of request.entry) }
    {
        self.giving
            .iter()
            .any(|rule| rule.allows(user, client, request))
    }

    /// Whether some pattern forbids a client some of what it asks for.
    pub(crate) fn forbids(&self, user: Option<&str>, client: &str, request: Request) -> bool
        ensures { result ≡ forbids self.now (option_copied user.entry) client.now (asked_of request.entry) }
    {
        self.denying
            .iter()
            .any(|rule| rule.denies(user, client, request))
    }
}
