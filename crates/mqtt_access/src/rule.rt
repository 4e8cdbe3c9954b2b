//! Rules of a file of permissions.

ghost use Rattle.std.specs.Prelude.{◌≡◌};
ghost use Rattle.std.specs.Option.{option_copied, option_map};
ghost use Rattle.mqtt_topics.specs.Levels.{levels};
ghost use Rattle.mqtt_access.specs.Filled.{filter_levels};
ghost use Rattle.mqtt_access.specs.Rules.{admits, allows, asked_of, can_fill, cannot_fill, denies, holds, meets_asked, passes, rule_levels, same_user, suits};

use crate::compare::part_of;
use crate::filled::{CLIENT_PLACE, Names, RuleFilter, USER_PLACE, has_level, is_level_name};
use mqtt_fields::Text;
use mqtt_topics::Filter;

/// What a rule gives on the topics of its filter.
#[derive(Clone, Copy, Debug, PartialEq, Eq)]
pub enum Access {
    Read,
    Write,
    ReadWrite,
    /// Neither may be done, whatever other rules give.
    Deny,
}

/// For whom a rule is.
#[derive(Debug, Drop, PartialEq, Eq)]
pub enum Scope {
    /// Clients without a user name.
    Nameless,
    /// Clients with this user name.
    User(Text),
    /// All clients: `%u` and `%c` in its filter stand for the user name and the client identifier.
    Pattern,
}

/// A rule on topics.
#[derive(Debug, Drop, PartialEq, Eq)]
pub struct TopicRule {
    pub scope: Scope,
    pub access: Access,
    pub filter: Filter,
}

/// A client identifier, or the beginning of one, under which a user may connect; no user is a client without a user name.
#[derive(Debug, Drop, PartialEq, Eq)]
pub struct ClientRule {
    pub user: Option<Text>,
    pub identifier: Text,
    pub is_prefix: bool,
}

/// What a client asks for: to publish to a topic, to receive a message of a topic, to subscribe to a filter.
#[derive(Clone, Copy, Debug)]
pub enum Request<'a> {
    Write(&'a str),
    Read(&'a str),
    Subscribe(&'a str),
}

/// Whether a rule of this kind gives what is asked for.
fn suits(access: Access, request: Request) -> bool
    ensures { result ≡ suits access (asked_of request.entry) }
{
    match (access, request) {
        (Access::ReadWrite, _) => true,
        (Access::Write, Request::Write(_)) => true,
        (Access::Read, Request::Read(_)) => true,
        (Access::Read, Request::Subscribe(_)) => true,
        _ => false,
    }
}

/// Whether a client has the names that the places of a filter want.
fn can_fill(filter: &str, user: Option<&str>, client: &str) -> bool
    ensures { result ≡ can_fill (levels filter.now) (option_copied user.entry) client.now }
{
    let named = match user {
        Some(user) => is_level_name(user),
        None => false,
    };
    (named || !has_level(filter, USER_PLACE))
        && (is_level_name(client) || !has_level(filter, CLIENT_PLACE))
}

/// Whether a client has a name that may stand in no level, and that a place of a filter wants.
fn cannot_fill(filter: &str, user: Option<&str>, client: &str) -> bool
    ensures { result ≡ cannot_fill (levels filter.now) (option_copied user.entry) client.now }
{
    let unfit = match user {
        Some(user) => !is_level_name(user),
        None => false,
    };
    (unfit && has_level(filter, USER_PLACE))
        || (!is_level_name(client) && has_level(filter, CLIENT_PLACE))
}

impl<'a> RuleFilter<'a> {
    /// Whether all that is asked for is in it.
    fn passes(self, request: Request) -> bool
        ensures { result ≡ passes (filter_levels self.entry) (asked_of request.entry) }
    {
        match request {
            Request::Write(topic) => self.matches(topic),
            Request::Read(topic) => self.matches(topic),
            Request::Subscribe(filter) => self.covers(part_of(filter)),
        }
    }

    /// Whether some of what is asked for is in it.
    fn hits(self, request: Request) -> bool
        ensures { result ≡ meets_asked (filter_levels self.entry) (asked_of request.entry) }
    {
        match request {
            Request::Write(topic) => self.matches(topic),
            Request::Read(topic) => self.matches(topic),
            Request::Subscribe(filter) => self.meets(part_of(filter)),
        }
    }
}

impl TopicRule {
    /// Its filter for a client; none where it says nothing of this client.
    fn filter_for<'a>(&'a self, user: Option<&'a str>, client: &'a str) -> Option<RuleFilter<'a>>
        ensures { option_map filter_levels result ≡ rule_levels self.now (option_copied user.entry) client.now }
    {
        let filter = self.filter.as_str();
        match &self.scope {
            Scope::Nameless => match user {
                None => Some(RuleFilter {
                    filter,
                    names: None,
                }),
                Some(_) => None,
            },
            Scope::User(owner) => match user {
                Some(user) if user == owner.as_str() => Some(RuleFilter {
                    filter,
                    names: None,
                }),
                _ => None,
            },
            Scope::Pattern => {
                if !can_fill(filter, user, client) {
                    return None;
                }
                let user = user.unwrap_or("");
                Some(RuleFilter {
                    filter,
                    names: Some(Names { user, client }),
                })
            }
        }
    }

    /// Whether it gives a client what it asks for.
    pub fn allows(&self, user: Option<&str>, client: &str, request: Request) -> bool
        ensures { result ≡ allows self.now (option_copied user.entry) client.now (asked_of request.entry) }
    {
        if !suits(self.access, request) {
            return false;
        }
        match self.filter_for(user, client) {
            Some(filter) => filter.passes(request),
            None => false,
        }
    }

    /// Whether it forbids a client some of what it asks for.
    pub fn denies(&self, user: Option<&str>, client: &str, request: Request) -> bool
        ensures { result ≡ denies self.now (option_copied user.entry) client.now (asked_of request.entry) }
    {
        if self.access != Access::Deny {
            return false;
        }
        match self.filter_for(user, client) {
            Some(filter) => filter.hits(request),
            None => match self.scope {
                Scope::Pattern => cannot_fill(self.filter.as_str(), user, client),
                _ => false,
            },
        }
    }
}

impl ClientRule {
    /// Whether it is for this user.
    pub fn is_for(&self, user: Option<&str>) -> bool
        ensures { result ≡ same_user self.now.user (option_copied user.entry) }
    {
        match (&self.user, user) {
            (None, None) => true,
            (Some(owner), Some(user)) => owner.as_str() == user,
            _ => false,
        }
    }

    /// Whether an identifier is the one of the rule, or begins with it.
    fn holds(&self, client: &str) -> bool
        ensures { result ≡ holds self.now client.now }
    {
        let own = self.identifier.as_str().as_bytes();
        let client = client.as_bytes();
        if self.is_prefix {
            client.starts_with(own)
        } else {
            client == own
        }
    }

    /// Whether it lets this user connect under an identifier.
    pub fn admits(&self, user: Option<&str>, client: &str) -> bool
        ensures { result ≡ admits self.now (option_copied user.entry) client.now }
    {
        self.is_for(user) && self.holds(client)
    }
}
