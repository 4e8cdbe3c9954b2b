//! The rules of a file by the users that they are for, so that those of a client alone are asked.

ghost use Rattle.std.specs.Prelude.{◌≡◌, ℕ, List, Option, false, IfOk, OnOk};
ghost use Rattle.std.specs.Option.{option_copied};
ghost use Rattle.mqtt_access.specs.Index.{HasMore, IsIndexOf, forbids_in, gives_in, may_connect_in, may_in, own};
ghost use Rattle.mqtt_access.specs.Rules.{Asked, asked_of};

use crate::named::NamedRules;
use crate::own::OwnRules;
use crate::patterns::Patterns;
use crate::permissions::{Permissions, may_connect};
use crate::rule::{ClientRule, Request, Scope, TopicRule};
use mqtt_fields::{NoMemory, Text};
use std::alloc::Global;

/// A user name as it stands in rules.
fn name_of(user: &Option<Text>) -> Option<&str>
    ensures { option_copied result ≡ user.now }
{
    match user {
        None => None,
        Some(user) => Some(user.as_str()),
    }
}

/// The rules of a file of permissions, those of each user together.
#[derive(Drop)]
pub struct RuleIndex {
    nameless: OwnRules,
    named: NamedRules,
    patterns: Patterns,
    clients: Vec<ClientRule>,
}

impl RuleIndex {
    /// These rules on identifiers, and none on topics.
    fn new(alloc: Global, clients: Vec<ClientRule>) -> RuleIndex
        ensures gives { (user : Option (List ℕ)) (client : List ℕ) (asked : Asked) → gives_in result user client asked ≡ false }
        ensures forbids { (user : Option (List ℕ)) (client : List ℕ) (asked : Asked) → forbids_in result user client asked ≡ false }
        ensures clients { result.clients.items ≡ clients.items }
    {
        RuleIndex {
            nameless: OwnRules::new(alloc),
            named: NamedRules::new(alloc),
            patterns: Patterns::new(alloc),
            clients,
        }
    }

    /// Adds a rule on topics.
    #[tactic(auto, using(crate::proofs::Indexing::more_nameless, crate::proofs::Indexing::more_pattern, crate::proofs::Indexing::more_user))]
    fn add(&mut self, alloc: Global, rule: TopicRule) -> Result<(), NoMemory>
        ensures { OnOk result (HasMore rule self.old self.new) }
    {
        let TopicRule {
            scope,
            access,
            filter,
        } = rule;
        match scope {
            Scope::Nameless => self.nameless.add(alloc, access, filter)?,
            Scope::User(name) => self.named.add(alloc, name, access, filter)?,
            Scope::Pattern => self.patterns.add(TopicRule {
                scope: Scope::Pattern,
                access,
                filter,
            })?,
        }
        Ok(())
    }

    /// The rules of a file.
    #[tactic(auto, using(crate::proofs::Owning::any_more))]
    pub fn of(alloc: Global, permissions: Permissions) -> Result<RuleIndex, NoMemory>
        ensures { IfOk result (λ index. IsIndexOf permissions index) }
    {
        let Permissions { topics, clients } = permissions;
        let mut index = RuleIndex::new(alloc, clients);
        for rule in topics {
            index.add(alloc, rule)?;
        }
        Ok(index)
    }

    /// The rules that are for clients of this user alone, if there are some.
    fn own(&self, user: &Option<Text>) -> Option<&OwnRules>
        ensures { option_copied result ≡ own self.now user.now }
    {
        match user {
            None => Some(&self.nameless),
            Some(user) => self.named.of(user.as_str()),
        }
    }

    /// Whether a client may do what it asks for: some rule gives it all, and no rule forbids some of it.
    pub fn may(&self, user: &Option<Text>, client: &str, request: Request) -> bool
        ensures { result ≡ may_in self.now user.now client.now (asked_of request.entry) }
    {
        let name = name_of(user);
        match self.own(user) {
            None => {
                self.patterns.gives(name, client, request)
                    && !self.patterns.forbids(name, client, request)
            }
            Some(rules) => {
                (rules.gives(request) || self.patterns.gives(name, client, request))
                    && !(rules.forbids(request) || self.patterns.forbids(name, client, request))
            }
        }
    }

    /// Whether a user may connect under an identifier: there is no rule on its identifiers, or one that lets it.
    pub fn may_connect(&self, user: &Option<Text>, client: &str) -> bool
        ensures { result ≡ may_connect_in self.now user.now client.now }
    {
        may_connect(&self.clients, name_of(user), client)
    }
}
