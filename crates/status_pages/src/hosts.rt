//! By which hosts a node is asked.

ghost use Rattle.std.specs.Prelude.{◌≡◌, ◌≤◌, ◌↔◌, ◌∷◌, length, IsTrue};
ghost use Rattle.http.specs.Request.{head_of};
ghost use Rattle.std.specs.declared.net.ipv4_addr.Ipv4Addr.{Ipv4Addr};
ghost use Rattle.std.specs.Net.Grammar.{IsIpv4Text};
ghost use Rattle.status_pages.specs.Hosts.{Fits, IsAddress, IsHost, host_in, is_among, is_bracketed, is_named, name_len, names_in, names_left};

use bytes::Bytes;
use http::Request;
use http1::text::eq_ignore_case;
use std::net::Ipv4Addr;

/// How long what stands before the port is.
fn name_len(host: &[u8]) -> usize
    ensures value { result ≡ name_len host.now }
    ensures within { result ≤ length host.now }
{
    host.iter().take_while(|b| **b != b':').count()
}

/// Whether a host is in brackets, as an address of IPv6 is.
fn is_bracketed(host: &[u8]) -> bool
    ensures { result ≡ is_bracketed host.now }
{
    match host {
        [] => false,
        [first, ..] => *first == b'[',
    }
}

/// Whether a text is an address of IPv4.
fn is_v4(text: &[u8]) -> bool
    ensures { IsTrue result ↔ ((address : Ipv4Addr) × IsIpv4Text text.now address) }
{
    match Ipv4Addr::parse_ascii(text) {
        Ok(_) => true,
        Err(_) => false,
    }
}

/// Whether a host is an IP address.
fn is_address(host: &[u8]) -> bool
    ensures { IsTrue result ↔ IsAddress host.now }
{
    is_bracketed(host) || is_v4(&host[..name_len(host)])
}

/// Whether a host has a name, in letters of either case. No host has an empty one.
fn is_named(host: &[u8], name: &[u8]) -> bool
    ensures { result ≡ is_named host.now name.now }
{
    !name.is_empty() && eq_ignore_case(&host[..name_len(host)], name)
}

/// The first name of a text, and the text after its comma if there is one.
fn first_name(names: &str) -> (&str, Option<&str>)
    ensures { names_in names.now ≡ result.0.now ∷ names_left result.1 }
{
    match names.split_once(',') {
        Some((name, rest)) => (name, Some(rest)),
        None => (names, None),
    }
}

/// Whether a host has one of the names between the commas of a text.
fn is_among(host: &[u8], names: &str) -> bool
    ensures { result ≡ is_among host.now names.now }
{
    let mut left = Some(names);
    while let Some(text) = left {
        let (name, rest) = first_name(text);
        if is_named(host, name.as_bytes()) {
            return true;
        }
        left = rest;
    }
    false
}

/// Whether the node of a name is asked by this host, which may have one of these names too.
fn is_host(host: &[u8], node: &[u8], names: &str) -> bool
    ensures { IsTrue result ↔ IsHost host.now node.now names.now }
{
    is_address(host)
        || is_named(host, b"localhost")
        || is_named(host, node)
        || is_among(host, names)
}

/// Whether a request is for the node of a name, which may be asked by these names too, by its `Host`, if it has one.
pub(crate) fn fits(request: &Request<Bytes>, node: &str, names: &str) -> bool
    ensures { IsTrue result ↔ Fits (host_in (head_of request.now).headers) node.now names.now }
{
    match request.headers().get("host") {
        Some(host) => is_host(host.as_bytes(), node.as_bytes(), names),
        None => true,
    }
}
