//! What the files say of clients.

ghost use Rattle.std.specs.Prelude.{◌≡◌, IfErr, IfOk, Ok};
ghost use Rattle.std.specs.Option.{option_copied};
ghost use Rattle.mqtt_access.specs.Rules.{asked_of};
ghost use Rattle.door_users.specs.Accounts.{accounts_of};
ghost use Rattle.door_users.specs.Files.{AreOfFiles, AreRights, AreRulesIf, IsFault, IsIndexIf, IsOfPermissions, IsOfUsers, entry_as, may_by, password_at, rights_of};

use crate::fault::{AccessFault, FileFault};
use crate::rules::read_permissions;
use crate::users::{Entry, Users};
use door_packets::{Access, Admission, Login};
use mqtt_access::{Permissions, Request, RuleIndex};
use mqtt_fields::{Blob, NoMemory, Text};
use std::alloc::Global;

/// The users of a file, and what the rules of another file give each. Without rules each user may do all.
pub struct FileAccess {
    users: Users,
    rules: Option<RuleIndex>,
    /// A client without a user name is let in too.
    anonymous: bool,
}

impl Drop for FileAccess {
    fn drop(self) {
        let FileAccess {
            users: _users,
            rules: _rules,
            anonymous: _anonymous,
        } = self;
    }
}

/// The rules by the users that they are for.
fn index_of(alloc: Global, rules: Option<Permissions>) -> Result<Option<RuleIndex>, NoMemory>
    ensures { IfOk result (λ index. IsIndexIf rules index) }
{
    match rules {
        None => Ok(None),
        Some(rules) => Ok(Some(RuleIndex::of(alloc, rules)?)),
    }
}

impl FileAccess {
    /// What these users may do by these rules; without rules all. With `anonymous` a client without a user name is let in too.
    #[tactic(auto, using(crate::proofs::Deciding::made))]
    pub fn new(
        alloc: Global,
        users: Users,
        rules: Option<Permissions>,
        anonymous: bool,
    ) -> Result<FileAccess, NoMemory>
        ensures { IfOk result (λ f. AreRights users rules anonymous (rights_of f)) }
    {
        Ok(FileAccess {
            users,
            rules: index_of(alloc, rules)?,
            anonymous,
        })
    }

    /// Who may come and what each may do by the texts of a file of users and of a file of permissions; without the second all. With `anonymous` a client
    /// without a user name is let in too. A fault names the first line with a flaw, in the file of users before the other one.
    pub fn read(
        alloc: Global,
        users: &str,
        permissions: Option<&str>,
        anonymous: bool,
    ) -> Result<FileAccess, AccessFault>
        ensures exact { IfOk result (λ f. AreOfFiles users.now (option_copied permissions.entry) anonymous (rights_of f)) }
        ensures fault { IfErr result (λ fault. IsFault users.now (option_copied permissions.entry) fault) }
    {
        let users = users_in(alloc, users)?;
        let rules = rules_in(alloc, permissions)?;
        Ok(FileAccess::new(alloc, users, rules, anonymous)?)
    }

    /// Whether a client may do what it asks for.
    fn may(&self, login: &Login, request: Request) -> bool
        ensures { result ≡ may_by self.now.rules login.now (asked_of request.entry) }
    {
        match &self.rules {
            None => true,
            Some(rules) => rules.may(&login.user, login.client.as_str(), request),
        }
    }
}

/// The users of a file's text.
fn users_in(alloc: Global, text: &str) -> Result<Users, AccessFault>
    ensures users { IfOk result (λ users. accounts_of text.now ≡ Ok users) }
    ensures fault { IfErr result (λ fault. IsOfUsers text.now fault) }
{
    match Users::parse(alloc, text) {
        Ok(users) => Ok(users),
        Err(FileFault::NoMemory) => Err(AccessFault::NoMemory),
        Err(FileFault::Line(number, flaw)) => Err(AccessFault::Users(number, flaw)),
    }
}

/// The rules of a file's text, if there is one.
fn rules_in(alloc: Global, text: Option<&str>) -> Result<Option<Permissions>, AccessFault>
    ensures rules { IfOk result (λ rules. AreRulesIf (option_copied text.entry) rules) }
    ensures fault { IfErr result (λ fault. IsOfPermissions (option_copied text.entry) fault) }
{
    let Some(text) = text else {
        return Ok(None);
    };
    match read_permissions(alloc, text) {
        Ok(rules) => Ok(Some(rules)),
        Err(FileFault::NoMemory) => Err(AccessFault::NoMemory),
        Err(FileFault::Line(number, flaw)) => Err(AccessFault::Permissions(number, flaw)),
    }
}

fn entry_as(entry: Entry) -> Admission
    ensures { result ≡ entry_as entry }
{
    match entry {
        Entry::Admitted => Admission::Admitted,
        Entry::WrongPassword => Admission::WrongPassword,
    }
}

/// What comes of a user name and a password. A name without a password isn't admitted.
fn password_at(users: &Users, name: &str, password: &Option<Blob>) -> Admission
    ensures { result ≡ password_at users.now name.now password.now }
{
    match password {
        None => Admission::WrongPassword,
        Some(password) => entry_as(users.admits(name, password.as_bytes())),
    }
}

impl Access for FileAccess {
    ghost use Rattle.door_users.specs.Files.{rights_of};

    ghost rights = { rights_of };

    fn admission(
        &self,
        _alloc: Global,
        user: &Option<Text>,
        password: &Option<Blob>,
    ) -> Result<Admission, NoMemory> {
        match user {
            None => {
                if self.anonymous {
                    Ok(Admission::Admitted)
                } else {
                    Ok(Admission::NoName)
                }
            }
            Some(name) => Ok(password_at(&self.users, name.as_str(), password)),
        }
    }

    fn may_connect(&self, login: &Login) -> bool {
        match &self.rules {
            None => true,
            Some(rules) => rules.may_connect(&login.user, login.client.as_str()),
        }
    }

    fn may_write(&self, login: &Login, topic: &str) -> bool {
        self.may(login, Request::Write(topic))
    }

    fn may_read(&self, login: &Login, topic: &str) -> bool {
        self.may(login, Request::Read(topic))
    }

    fn may_subscribe(&self, login: &Login, filter: &str) -> bool {
        self.may(login, Request::Subscribe(filter))
    }
}
