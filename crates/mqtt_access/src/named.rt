//! Rules by user names.

ghost use Rattle.std.specs.Prelude.{◌≡◌, ◌<◌, List, None, OnOk, length, ℕ};
ghost use Rattle.std.specs.Option.{option_copied};
ghost use Rattle.mqtt_access.specs.Named.{IsAddedFor, IsJoined, IsTaken, first_named, number_of, rules_of, users_at};

use crate::own::OwnRules;
use crate::rule::Access;
use mqtt_fields::{NoMemory, Text};
use mqtt_topics::Filter;
use std::alloc::Global;

/// One more than the greatest number of a name.
const NUMBERS: usize = 16_384;

/// The rules of a user.
#[derive(Debug, Drop)]
pub(crate) struct UserRules {
    name: Text,
    rules: OwnRules,
}

/// A number for a name: the place of its rules, so that few names are compared.
fn number_of(name: &str) -> usize
    ensures { result ≡ number_of name.now }
{
    let mut number = 0;
    for byte in name.as_bytes() {
        number = (number * 31 + *byte as usize) % NUMBERS;
    }
    number
}

/// The rules of the first of this name.
fn first_named<'a>(users: &'a [UserRules], name: &str) -> Option<&'a OwnRules>
    ensures { option_copied result ≡ first_named name.now users.now }
{
    for user in users {
        if user.name.as_str() == name {
            return Some(&user.rules);
        }
    }
    None
}

/// Takes out the rules of the first of this name.
#[tactic(auto, using(crate::proofs::Naming::taken_none, crate::proofs::Naming::taken_some))]
fn take_named(users: &mut Vec<UserRules>, name: &str) -> Option<OwnRules>
    ensures { IsTaken name.now users.old.items users.new.items result }
{
    for i in 0..users.len() {
        if users[i].name.as_str() == name {
            let UserRules { name: _name, rules } = users.remove(i);
            return Some(rules);
        }
    }
    None
}

/// Adds a rule of a user.
#[tactic(auto, using(crate::proofs::Naming::joined_some, crate::proofs::Naming::joined_none))]
fn join(
    alloc: Global,
    users: &mut Vec<UserRules>,
    name: Text,
    access: Access,
    filter: Filter,
) -> Result<(), NoMemory>
    ensures { OnOk result (IsJoined name access filter users.old.items users.new.items) }
{
    let mut rules = match take_named(users, name.as_str()) {
        Some(rules) => rules,
        None => OwnRules::new(alloc),
    };
    rules.add(alloc, access, filter)?;
    users.insert(0, UserRules { name, rules })?;
    Ok(())
}

/// The rules of users: those of each number of a name at its place.
#[derive(Drop)]
pub(crate) struct NamedRules {
    users: Vec<Vec<UserRules>>,
}

impl NamedRules {
    /// No rules.
    pub(crate) fn new(alloc: Global) -> NamedRules
        ensures { (name : List ℕ) → rules_of result name ≡ None }
    {
        NamedRules {
            users: Vec::new(alloc),
        }
    }

    /// There is a place for this number.
    #[tactic(auto, using(crate::proofs::Naming::still_same))]
    fn widen(&mut self, alloc: Global, number: usize) -> Result<(), NoMemory>
        ensures place { OnOk result (number < length self.new.users.items) }
        ensures same { OnOk result ((n : ℕ) → users_at self.new n ≡ users_at self.old n) }
    {
        while self.users.len() <= number {
            self.users.push(Vec::new(alloc))?;
        }
        Ok(())
    }

    /// The rules of a user, if there are some.
    pub(crate) fn of(&self, name: &str) -> Option<&OwnRules>
        ensures { option_copied result ≡ rules_of self.now name.now }
    {
        match self.users.get(number_of(name)) {
            None => None,
            Some(users) => first_named(users, name),
        }
    }

    /// Adds a rule of a user.
    #[tactic(auto, using(crate::proofs::Naming::added))]
    pub(crate) fn add(
        &mut self,
        alloc: Global,
        name: Text,
        access: Access,
        filter: Filter,
    ) -> Result<(), NoMemory>
        ensures { OnOk result (IsAddedFor name access filter self.old self.new) }
    {
        let number = number_of(name.as_str());
        self.widen(alloc, number)?;
        join(alloc, &mut self.users[number], name, access, filter)
    }
}
