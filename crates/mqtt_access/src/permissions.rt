//! What the rules of a file come to.

ghost use Rattle.std.specs.Prelude.{◌≡◌};
ghost use Rattle.std.specs.List.{list_any};
ghost use Rattle.std.specs.Option.{option_copied};
ghost use Rattle.mqtt_access.specs.Rules.{admits, allows, asked_of, denies, may, may_connect, same_user};
ghost use Rattle.mqtt_access.specs.Rules.Asked.{ToWrite, ToRead, ToSubscribe};

use crate::rule::{ClientRule, Request, TopicRule};

/// Whether some rule gives a client what it asks for.
fn some_allows(rules: &[TopicRule], user: Option<&str>, client: &str, request: Request) -> bool
    ensures { result ≡ list_any (λ rule. allows rule (option_copied user.entry) client.now (asked_of request.entry)) rules.now }
{
    rules.iter().any(|rule| rule.allows(user, client, request))
}

/// Whether some rule forbids a client some of what it asks for.
fn some_denies(rules: &[TopicRule], user: Option<&str>, client: &str, request: Request) -> bool
    ensures { result ≡ list_any (λ rule. denies rule (option_copied user.entry) client.now (asked_of request.entry)) rules.now }
{
    rules.iter().any(|rule| rule.denies(user, client, request))
}

/// Whether some rule is on the identifiers of this user.
fn some_rule(rules: &[ClientRule], user: Option<&str>) -> bool
    ensures { result ≡ list_any (λ rule. same_user rule.user (option_copied user.entry)) rules.now }
{
    rules.iter().any(|rule| rule.is_for(user))
}

/// Whether some rule lets this user connect under an identifier.
fn some_admits(rules: &[ClientRule], user: Option<&str>, client: &str) -> bool
    ensures { result ≡ list_any (λ rule. admits rule (option_copied user.entry) client.now) rules.now }
{
    rules.iter().any(|rule| rule.admits(user, client))
}

/// Whether a user may connect under an identifier by these rules.
pub(crate) fn may_connect(rules: &[ClientRule], user: Option<&str>, client: &str) -> bool
    ensures { result ≡ may_connect rules.now (option_copied user.entry) client.now }
{
    !some_rule(rules, user) || some_admits(rules, user, client)
}

/// The rules of a file of permissions, in their order.
#[derive(Debug, Drop)]
pub struct Permissions {
    pub topics: Vec<TopicRule>,
    pub clients: Vec<ClientRule>,
}

impl Permissions {
    /// Whether a client may do what it asks for: some rule gives it all, and no rule forbids some of it.
    pub fn may(&self, user: Option<&str>, client: &str, request: Request) -> bool
        ensures { result ≡ may self.now.topics.items (option_copied user.entry) client.now (asked_of request.entry) }
    {
        some_allows(&self.topics, user, client, request)
            && !some_denies(&self.topics, user, client, request)
    }

    /// Whether a client may publish to a topic.
    pub fn may_write(&self, user: Option<&str>, client: &str, topic: &str) -> bool
        ensures { result ≡ may self.now.topics.items (option_copied user.entry) client.now (ToWrite topic.now) }
    {
        self.may(user, client, Request::Write(topic))
    }

    /// Whether a client may receive a message of a topic.
    pub fn may_read(&self, user: Option<&str>, client: &str, topic: &str) -> bool
        ensures { result ≡ may self.now.topics.items (option_copied user.entry) client.now (ToRead topic.now) }
    {
        self.may(user, client, Request::Read(topic))
    }

    /// Whether a client may subscribe to a filter.
    pub fn may_subscribe(&self, user: Option<&str>, client: &str, filter: &str) -> bool
        ensures { result ≡ may self.now.topics.items (option_copied user.entry) client.now (ToSubscribe filter.now) }
    {
        self.may(user, client, Request::Subscribe(filter))
    }

    /// Whether a user may connect under an identifier: there is no rule on its identifiers, or one that lets it.
    pub fn may_connect(&self, user: Option<&str>, client: &str) -> bool
        ensures { result ≡ may_connect self.now.clients.items (option_copied user.entry) client.now }
    {
        may_connect(&self.clients, user, client)
    }
}
