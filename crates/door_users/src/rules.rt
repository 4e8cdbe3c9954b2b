//! The file of rules.

ghost use Rattle.std.specs.Prelude.{◌≡◌, ◌∷◌, ◌++◌, [], Ok, IfErr, IfOk, OnOk};
ghost use Rattle.std.specs.Str.{trim};
ghost use Rattle.door_users.specs.declared.fault.Unread.TheVariants as unread;
ghost use Rattle.door_users.specs.Outcomes.{Fails, FileFails, FileGives, Gives, at_line};
ghost use Rattle.door_users.specs.Rules.{after_line, after_text, identifier_for, rules_of, scope_of, state_of};

use crate::account::text_of;
use crate::fault::{FileFault, LineFlaw, Unread};
use crate::line::{RuleLine, read_line};
use crate::lines::FileLines;
use mqtt_access::{Access, ClientRule, Permissions, Scope, TopicRule};
use mqtt_fields::Text;
use mqtt_topics::Filter;
use std::alloc::Global;

/// The user whose rules are read, and the rules so far.
#[derive(Debug, Drop)]
struct Reading {
    user: Option<Text>,
    topics: Vec<TopicRule>,
    clients: Vec<ClientRule>,
}

/// A user name once more.
fn copy_of(alloc: Global, user: &Option<Text>) -> Result<Option<Text>, Unread>
    ensures same { IfOk result (λ copy. copy ≡ user.now) }
    ensures err { IfErr result (λ e. e ≡ unread.NoMemory) }
{
    match user {
        Some(name) => {
            let name = name.copy(alloc)?;
            Ok(Some(name))
        }
        None => Ok(None),
    }
}

/// For whom the rules of this user are.
fn scope_of(alloc: Global, user: &Option<Text>) -> Result<Scope, Unread>
    ensures same { IfOk result (λ scope. scope ≡ scope_of user.now) }
    ensures err { IfErr result (λ e. e ≡ unread.NoMemory) }
{
    match user {
        Some(name) => {
            let name = name.copy(alloc)?;
            Ok(Scope::User(name))
        }
        None => Ok(Scope::Nameless),
    }
}

/// A client identifier, with the user's name in front where that is asked for.
fn identifier_for(
    alloc: Global,
    is_named: bool,
    user: &Option<Text>,
    identifier: Text,
) -> Result<Text, Unread>
    ensures { Gives (λ t. t) result (identifier_for is_named user.now identifier) }
{
    if !is_named {
        return Ok(identifier);
    }
    let Some(name) = user else {
        return Err(Unread::Flaw(LineFlaw::NoUser));
    };
    let mut whole = String::from_str(alloc, name.as_str())?;
    whole.push_str(identifier.as_str())?;
    text_of(alloc, whole.as_str(), LineFlaw::BadIdentifier)
}

impl Reading {
    /// Adds a rule on topics.
    fn add_topic(&mut self, scope: Scope, access: Access, filter: Filter) -> Result<(), Unread>
        ensures user { self.new.user ≡ self.old.user }
        ensures clients { self.new.clients.items ≡ self.old.clients.items }
        ensures ok { OnOk result (self.new.topics.items ≡ self.old.topics.items ++ record { scope = scope; access = access; filter = filter } ∷ []) }
        ensures err { IfErr result (λ e. e ≡ unread.NoMemory) }
    {
        self.topics.push(TopicRule {
            scope,
            access,
            filter,
        })?;
        Ok(())
    }

    /// Adds a rule on identifiers.
    fn add_client(
        &mut self,
        user: Option<Text>,
        identifier: Text,
        is_prefix: bool,
    ) -> Result<(), Unread>
        ensures user { self.new.user ≡ self.old.user }
        ensures topics { self.new.topics.items ≡ self.old.topics.items }
        ensures ok { OnOk result (self.new.clients.items ≡ self.old.clients.items ++ record { user = user; identifier = identifier; is_prefix = is_prefix } ∷ []) }
        ensures err { IfErr result (λ e. e ≡ unread.NoMemory) }
    {
        self.clients.push(ClientRule {
            user,
            identifier,
            is_prefix,
        })?;
        Ok(())
    }

    /// Takes in what a line says.
    fn take(&mut self, alloc: Global, line: RuleLine) -> Result<(), Unread>
        ensures ok { OnOk result (after_line (state_of self.old) line ≡ Ok (state_of self.new)) }
        ensures err { IfErr result (λ e. Fails e (after_line (state_of self.old) line)) }
    {
        match line {
            RuleLine::Nothing => Ok(()),
            RuleLine::User(name) => {
                self.user = Some(name);
                Ok(())
            }
            RuleLine::Topic(access, filter) => {
                let scope = scope_of(alloc, &self.user)?;
                self.add_topic(scope, access, filter)
            }
            RuleLine::Pattern(access, filter) => self.add_topic(Scope::Pattern, access, filter),
            RuleLine::Client(is_named, identifier, is_prefix) => {
                let identifier = identifier_for(alloc, is_named, &self.user, identifier)?;
                let user = copy_of(alloc, &self.user)?;
                self.add_client(user, identifier, is_prefix)
            }
        }
    }

    /// Reads a line that has no white space at its ends.
    fn read(&mut self, alloc: Global, line: &str) -> Result<(), Unread>
        ensures ok { OnOk result (after_text (state_of self.old) line.now ≡ Ok (state_of self.new)) }
        ensures err { IfErr result (λ e. Fails e (after_text (state_of self.old) line.now)) }
    {
        let line = read_line(alloc, line)?;
        self.take(alloc, line)
    }

    /// Reads the line of this number.
    fn read_at(&mut self, alloc: Global, number: u64, line: &str) -> Result<(), FileFault>
        ensures ok { OnOk result (after_text (state_of self.old) (trim line.now) ≡ Ok (state_of self.new)) }
        ensures err { IfErr result (λ e. FileFails e (at_line number (after_text (state_of self.old) (trim line.now)))) }
    {
        match self.read(alloc, line.trim()) {
            Ok(()) => Ok(()),
            Err(Unread::NoMemory) => Err(FileFault::NoMemory),
            Err(Unread::Flaw(flaw)) => Err(FileFault::Line(number, flaw)),
        }
    }
}

/// The rules of a file, or its first line with a flaw.
#[tactic(auto, using(crate::proofs::LineLaws::lines_bound, crate::proofs::StepLaws::rules_go, crate::proofs::StepLaws::rules_fail, crate::proofs::StepLaws::rules_end))]
pub fn read_permissions(alloc: Global, text: &str) -> Result<Permissions, FileFault>
    ensures { FileGives (λ p. (p.topics.items, p.clients.items)) result (rules_of text.now) }
{
    let mut reading = Reading {
        user: None,
        topics: Vec::new(alloc),
        clients: Vec::new(alloc),
    };
    let mut number: u64 = 1;
    for line in FileLines::of(text) {
        reading.read_at(alloc, number, line)?;
        number += 1;
    }
    Ok(Permissions {
        topics: reading.topics,
        clients: reading.clients,
    })
}
