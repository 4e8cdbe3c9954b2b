//! A subscription.
ghost use Rattle.std.specs.Prelude.{◌≡◌, ◌↔◌, IfOk, IfSome, IsSome, IsTrue, true};
ghost use Rattle.subscription_set.specs.Entries.{can_be_asked, entry_eq, same_text};

use mqtt_fields::{NoMemory, SubscriptionOptions, Text};
use mqtt_topics::Filter;
use std::alloc::Global;
use std::marker::Model;

/// A subscription of a client to a filter (MQTT 5.0, 3.8), with options and an identifier that a
/// SUBSCRIBE can have.
#[derive(Debug)]
pub struct Entry {
    client: Text,
    filter: Filter,
    options: SubscriptionOptions,
    identifier: u32,
    version: u32,
}

impl Drop for Entry {
    fn drop(self) {
        let Entry {
            client: _client,
            filter: _filter,
            options: _options,
            identifier: _identifier,
            version: _version,
        } = self;
    }
}

impl Model for Entry {
    ghost use Rattle.std.specs.Prelude.{◌≡◌, true};
    ghost use Rattle.subscription_set.specs.Entries.{Entry as EntryValue, coded_entry, can_be_asked};

    ghost Value = { EntryValue };

    ghost coded = { coded_entry };

    ghost view = { λ e. record {
      client = e.client;
      filter = e.filter;
      options = e.options;
      identifier = e.identifier;
      version = e.version;
    } };

    ghost invariant = { λ e. can_be_asked e.options e.identifier ≡ true };
}

// Whether both texts have the same bytes.
fn is_same_text(a: &str, b: &str) -> bool
    ensures { result ≡ same_text a.now b.now }
{
    a.as_bytes() == b.as_bytes()
}

/// Whether a SUBSCRIBE can have the options and the identifier: QoS and Retain Handling below 3
/// and no reserved bit (MQTT 5.0, 3.8.3.1), an identifier of at most 268,435,455 (3.8.2.1.2).
fn can_be_asked(options: SubscriptionOptions, identifier: u32) -> bool
    ensures { result ≡ can_be_asked options identifier }
{
    (options.byte() < 64 && (options.qos() < 3 && options.retain_handling() < 3))
        && identifier <= 268_435_455
}

impl Entry {
    /// The subscription, or None where no SUBSCRIBE can have the options and the identifier. The
    /// identifier is 0 where there is none. The version is that of the home table under which the
    /// subscription is made.
    pub fn new(
        client: Text,
        filter: Filter,
        options: SubscriptionOptions,
        identifier: u32,
        version: u32,
    ) -> Option<Entry>
        ensures some { IfSome result (λ e. e ≡ record {
          client = client;
          filter = filter;
          options = options;
          identifier = identifier;
          version = version;
        }) }
        ensures when { IsSome result ↔ (can_be_asked options identifier ≡ true) }
    {
        if !can_be_asked(options, identifier) {
            return None;
        }
        Some(Entry {
            client,
            filter,
            options,
            identifier,
            version,
        })
    }

    /// Whose it is.
    pub fn client(&self) -> &Text
        ensures { result.now ≡ self.now.client }
    {
        &self.client
    }

    /// What it is to.
    pub fn filter(&self) -> &Filter
        ensures { result.now ≡ self.now.filter }
    {
        &self.filter
    }

    /// How messages are to be sent (MQTT 5.0, 3.8.3.1).
    pub fn options(&self) -> SubscriptionOptions
        ensures same { result ≡ self.now.options }
        ensures asked { can_be_asked self.now.options self.now.identifier ≡ true }
    {
        self.options
    }

    /// The Subscription Identifier (MQTT 5.0, 3.8.2.1.2), or 0 where there is none.
    pub fn identifier(&self) -> u32
        ensures same { result ≡ self.now.identifier }
        ensures asked { can_be_asked self.now.options self.now.identifier ≡ true }
    {
        self.identifier
    }

    /// The version of the home table under which the subscription was made.
    pub fn version(&self) -> u32
        ensures { result ≡ self.now.version }
    {
        self.version
    }

    /// The same subscription once more.
    pub fn copy(&self, alloc: Global) -> Result<Entry, NoMemory>
        ensures { IfOk result (λ copy. copy ≡ self.now) }
    {
        let client = self.client.copy(alloc)?;
        let filter = self.filter.copy(alloc)?;
        Ok(Entry {
            client,
            filter,
            options: self.options,
            identifier: self.identifier,
            version: self.version,
        })
    }

    /// Whether the subscription is the client's.
    pub fn has_client(&self, client: &Text) -> bool
        ensures { result ≡ same_text client.now self.now.client }
    {
        is_same_text(client.as_str(), self.client.as_str())
    }

    /// Whether the subscription is to the filter.
    pub fn has_filter(&self, filter: &Filter) -> bool
        ensures { result ≡ same_text filter.now self.now.filter }
    {
        is_same_text(filter.as_str(), self.filter.as_str())
    }

    /// Whether both are the same in every field.
    pub fn same(&self, other: &Entry) -> bool
        ensures { result ≡ entry_eq self.now other.now }
    {
        is_same_text(self.client.as_str(), other.client.as_str())
            && (is_same_text(self.filter.as_str(), other.filter.as_str())
                && (self.options.byte() == other.options.byte()
                    && (self.identifier == other.identifier && self.version == other.version)))
    }
}
