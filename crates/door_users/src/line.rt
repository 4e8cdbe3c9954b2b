//! A line of a file of rules.

ghost use Rattle.std.specs.Prelude.{◌≡◌};
ghost use Rattle.std.specs.List.{after_first, before_first, list_any};
ghost use Rattle.door_users.specs.Lines.{is_space};
ghost use Rattle.door_users.specs.Outcomes.{Gives};
ghost use Rattle.door_users.specs.RuleLines.{access_and_filter, access_in, after_name, client_line, is_named, is_star, line_by, line_in, pattern_line, topic_line, user_name_line};

use crate::account::text_of;
use crate::fault::{LineFlaw, Unread};
use crate::filter::{filter_of, pattern_of};
use crate::lines::word_of;
use crate::users::is_skipped;
use mqtt_access::Access;
use mqtt_fields::Text;
use mqtt_topics::Filter;
use std::alloc::Global;

/// What a line says.
#[derive(Debug, Drop)]
pub(crate) enum RuleLine {
    /// It is empty, or a comment.
    Nothing,
    /// The rules of this user follow.
    User(Text),
    /// A rule of the user.
    Topic(Access, Filter),
    /// A rule for all.
    Pattern(Access, Filter),
    /// An identifier of the user, or with true behind it the beginning of one; with true before it the user's name stands in front.
    Client(bool, Text, bool),
}

/// What may be done, by its word.
fn access_of(word: &str) -> Result<Access, Unread>
    ensures { Gives (λ access. access) result (access_in word.now) }
{
    if word == "read" {
        Ok(Access::Read)
    } else if word == "write" {
        Ok(Access::Write)
    } else if word == "readwrite" {
        Ok(Access::ReadWrite)
    } else if word == "deny" {
        Ok(Access::Deny)
    } else {
        Err(Unread::Flaw(LineFlaw::BadAccess))
    }
}

/// Whether a text has a space.
fn has_space(text: &str) -> bool
    ensures { result ≡ list_any is_space text.now }
{
    text.as_bytes().iter().any(|b| *b == b' ')
}

/// Whether a text has a `*`.
fn has_star(text: &str) -> bool
    ensures { result ≡ list_any is_star text.now }
{
    text.as_bytes().iter().any(|b| *b == b'*')
}

/// What may be done, and the text of the filter.
fn access_and_filter(rest: &str) -> Result<(Access, &str), Unread>
    ensures { Gives (λ x. (x.0, x.1.now)) result (access_and_filter rest.now) }
{
    if rest.is_empty() {
        return Err(Unread::Flaw(LineFlaw::NoFilter));
    }
    if !has_space(rest) {
        return Ok((Access::ReadWrite, rest));
    }
    let (word, filter) = word_of(rest);
    let access = access_of(word)?;
    Ok((access, filter.trim_start()))
}

fn topic_line(alloc: Global, rest: &str) -> Result<RuleLine, Unread>
    ensures { Gives (λ line. line) result (topic_line rest.now) }
{
    let (access, filter) = access_and_filter(rest)?;
    let filter = filter_of(alloc, filter)?;
    Ok(RuleLine::Topic(access, filter))
}

fn pattern_line(alloc: Global, rest: &str) -> Result<RuleLine, Unread>
    ensures { Gives (λ line. line) result (pattern_line rest.now) }
{
    let (access, filter) = access_and_filter(rest)?;
    let filter = pattern_of(alloc, filter)?;
    Ok(RuleLine::Pattern(access, filter))
}

fn user_name_line(alloc: Global, rest: &str) -> Result<RuleLine, Unread>
    ensures { Gives (λ line. line) result (user_name_line rest.now) }
{
    if rest.is_empty() {
        return Err(Unread::Flaw(LineFlaw::NoName));
    }
    let name = text_of(alloc, rest, LineFlaw::BadName)?;
    Ok(RuleLine::User(name))
}

/// What stands before the first `*`, and after it.
fn star_parts(text: &str) -> (&str, &str)
    ensures before { result.0.now ≡ before_first is_star text.now }
    ensures after { result.1.now ≡ after_first is_star text.now }
{
    text.split_once('*').unwrap_or((text, ""))
}

/// What stands after `%u`, and whether that is in front.
fn after_name(text: &str) -> (bool, &str)
    ensures named { result.0 ≡ is_named text.now }
    ensures rest { result.1.now ≡ after_name text.now }
{
    match text.strip_prefix("%u") {
        Some(rest) => (true, rest),
        None => (false, text),
    }
}

fn client_line(alloc: Global, rest: &str) -> Result<RuleLine, Unread>
    ensures { Gives (λ line. line) result (client_line rest.now) }
{
    if rest.is_empty() {
        return Err(Unread::Flaw(LineFlaw::NoIdentifier));
    }
    let (identifier, after) = star_parts(rest);
    if !after.is_empty() {
        return Err(Unread::Flaw(LineFlaw::BadIdentifier));
    }
    let (is_named, identifier) = after_name(identifier);
    let identifier = text_of(alloc, identifier, LineFlaw::BadIdentifier)?;
    Ok(RuleLine::Client(is_named, identifier, has_star(rest)))
}

/// What a line says, by its first word and the rest.
fn line_by(alloc: Global, word: &str, rest: &str) -> Result<RuleLine, Unread>
    ensures { Gives (λ line. line) result (line_by word.now rest.now) }
{
    if word == "user" {
        user_name_line(alloc, rest)
    } else if word == "topic" {
        topic_line(alloc, rest)
    } else if word == "pattern" {
        pattern_line(alloc, rest)
    } else if word == "client" {
        client_line(alloc, rest)
    } else {
        Err(Unread::Flaw(LineFlaw::UnknownWord))
    }
}

/// What a line says that has no white space at its ends.
pub(crate) fn read_line(alloc: Global, line: &str) -> Result<RuleLine, Unread>
    ensures { Gives (λ x. x) result (line_in line.now) }
{
    if is_skipped(line) {
        return Ok(RuleLine::Nothing);
    }
    let (word, rest) = word_of(line);
    line_by(alloc, word, rest.trim_start())
}
