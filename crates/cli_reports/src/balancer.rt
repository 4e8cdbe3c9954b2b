//! The text of a backend of HAProxy that sends each client to its home.

ghost use Rattle.std.specs.Prelude.{◌≡◌, ◌==◌, ◌++◌, length, map, string_bytes, IfOk, OnOk};
ghost use Rattle.std.specs.List.{list_all, list_any, filter};
ghost use Rattle.hex.specs.Hex.{encode_lower};
ghost use Rattle.cli_files.specs.Listed.{placed};
ghost use Rattle.cli_reports.specs.Balancer.{address_at, as_word, balancer_text, begins, begins_by, begins_plainly, byte_lines, escapes, given, given_line, has_length, heading, home_line, is_plain, is_rest, lines_below, lines_of, name_at, opening, ordered, rest, rest_line, rest_lines_if, server_line, sum_line, sum_lines, sum_lines_if, use_line, zero_line};

use cli_files::Home;
use home_table::HomeTable;
use mqtt_fields::{LONGEST_CLIENT, NoMemory};
use std::alloc::{AllocError, Global};

/// Whether HAProxy takes a byte of a word as it is.
fn is_plain(b: u8) -> bool
    ensures { result ≡ is_plain b }
{
    b.is_ascii_alphanumeric() || b"-_./:[]".contains(&b)
}

/// Whether HAProxy takes a word as it is.
fn has_plain(word: &str) -> bool
    ensures { result ≡ list_all is_plain word.now }
{
    word.as_bytes().iter().all(|b| is_plain(*b))
}

/// The name of a node; nothing where there is none of this number.
fn name_of(homes: &HomeTable, number: u16) -> &str
    ensures { result.now ≡ name_at homes.now number }
{
    if number < homes.nodes() {
        homes.name(number)
    } else {
        ""
    }
}

/// Where clients reach a node; nothing where there is none of this number.
fn address_of(homes: &HomeTable, number: u16) -> &str
    ensures { result.now ≡ address_at homes.now number }
{
    if number < homes.nodes() {
        homes.reference(number)
    } else {
        ""
    }
}

/// The bytes of a word, each by its number.
fn push_escapes(alloc: Global, text: &mut String, bytes: &[u8]) -> Result<(), NoMemory>
    ensures { OnOk result (string_bytes text.new ≡ string_bytes text.old ++ escapes bytes.now) }
{
    for byte in bytes {
        let digits = hex::encode(alloc, [*byte])?;
        write!(text, "\\x{digits}")?;
    }
    Ok(())
}

/// A word as HAProxy reads it.
fn push_word(alloc: Global, text: &mut String, word: &str) -> Result<(), NoMemory>
    ensures { OnOk result (string_bytes text.new ≡ string_bytes text.old ++ as_word word.now) }
{
    if has_plain(word) {
        text.push_str(word)?;
        Ok(())
    } else {
        push_escapes(alloc, text, word.as_bytes())
    }
}

/// A line by which a node of this name and number gets what it has given.
#[tactic(auto, unfolding(crate::specs::Balancer::given))]
fn push_given_to(text: &mut String, name: &str, number: u16) -> Result<(), AllocError>
    ensures { OnOk result (string_bytes text.new ≡ string_bytes text.old ++ given name.now number) }
{
    write!(
        text,
        "    use-server {name} if {{ var(txn.id) -m reg ^auto-{number}-[0-9] }} !{{ var(txn.id) -m reg ^auto-{number}-(0.|.*[^0-9]) }}\n"
    )
}

/// The line of what a node has given.
#[tactic(auto, unfolding(crate::specs::Balancer::given_line))]
fn push_given(text: &mut String, homes: &HomeTable, number: u16) -> Result<(), NoMemory>
    ensures { OnOk result (string_bytes text.new ≡ string_bytes text.old ++ given_line homes.now number) }
{
    push_given_to(text, name_of(homes, number), number)?;
    Ok(())
}

/// The bytes of a prefix in hexadecimal digits.
fn digits_of(alloc: Global, prefix: &str) -> Result<String, NoMemory>
    ensures { IfOk result (λ digits. string_bytes digits ≡ encode_lower prefix.now) }
{
    Ok(hex::encode(alloc, prefix.as_bytes())?)
}

/// Which identifiers begin with a prefix that HAProxy takes as it is, as a condition of HAProxy.
#[tactic(auto, unfolding(crate::specs::Balancer::begins_plainly))]
fn begins_plainly(alloc: Global, prefix: &str) -> Result<String, NoMemory>
    ensures { IfOk result (λ text. string_bytes text ≡ begins_plainly prefix.now) }
{
    Ok(format!(in alloc; "{{ var(txn.id) -m beg -- {prefix} }}")?)
}

/// Which identifiers begin with a prefix by its digits, as a condition of HAProxy.
#[tactic(auto, unfolding(crate::specs::Balancer::begins_by))]
fn begins_by(alloc: Global, digits: &str) -> Result<String, NoMemory>
    ensures { IfOk result (λ text. string_bytes text ≡ begins_by digits.now) }
{
    Ok(format!(in alloc; "{{ var(txn.id),hex,lower -m beg {digits} }}")?)
}

/// Which identifiers begin with a prefix, as a condition of HAProxy.
#[tactic(auto, unfolding(crate::specs::Balancer::begins))]
fn begins(alloc: Global, prefix: &str) -> Result<String, NoMemory>
    ensures { IfOk result (λ text. string_bytes text ≡ begins prefix.now) }
{
    if prefix.is_empty() {
        Ok(String::from_str(alloc, "{ var(txn.id),length gt 0 }")?)
    } else if has_plain(prefix) {
        begins_plainly(alloc, prefix)
    } else {
        let digits = digits_of(alloc, prefix)?;
        begins_by(alloc, digits.as_str())
    }
}

/// A line by which a node of this name gets what meets a condition.
#[tactic(auto, unfolding(crate::specs::Balancer::use_line))]
fn push_use(text: &mut String, name: &str, condition: &str) -> Result<(), AllocError>
    ensures { OnOk result (string_bytes text.new ≡ string_bytes text.old ++ use_line name.now condition.now) }
{
    write!(text, "    use-server {name} if {condition}\n")
}

/// The line of a home.
#[tactic(auto, unfolding(crate::specs::Balancer::home_line))]
fn push_home(
    alloc: Global,
    text: &mut String,
    homes: &HomeTable,
    home: &Home,
) -> Result<(), NoMemory>
    ensures { OnOk result (string_bytes text.new ≡ string_bytes text.old ++ home_line homes.now (placed home.now)) }
{
    let condition = begins(alloc, home.prefix.as_str())?;
    push_use(text, name_of(homes, home.node), condition.as_str())?;
    Ok(())
}

/// The lines of the homes whose prefixes have so many bytes.
fn push_homes(
    alloc: Global,
    text: &mut String,
    homes: &HomeTable,
    listed: &[Home],
    bytes: usize,
) -> Result<(), NoMemory>
    ensures { OnOk result (string_bytes text.new ≡ string_bytes text.old
        ++ lines_of (home_line homes.now) (filter (has_length bytes) (map placed listed.now))) }
{
    for home in listed {
        if home.prefix.as_str().len() == bytes {
            push_home(alloc, text, homes, home)?;
        }
    }
    Ok(())
}

/// The lines of the homes, the longest prefix first.
fn push_ordered(
    alloc: Global,
    text: &mut String,
    homes: &HomeTable,
    listed: &[Home],
) -> Result<(), NoMemory>
    ensures { OnOk result (string_bytes text.new ≡ string_bytes text.old
        ++ lines_of (home_line homes.now) (ordered (map placed listed.now))) }
{
    for shorter in 0..LONGEST_CLIENT + 1 {
        push_homes(alloc, text, homes, listed, LONGEST_CLIENT - shorter)?;
    }
    Ok(())
}

/// The lines of what the nodes have given.
fn push_all_given(text: &mut String, homes: &HomeTable) -> Result<(), NoMemory>
    ensures { OnOk result (string_bytes text.new ≡ string_bytes text.old ++ lines_below (given_line homes.now) (length homes.now.nodes)) }
{
    for number in 0..homes.nodes() {
        push_given(text, homes, number)?;
    }
    Ok(())
}

/// The line that adds the byte at a place of an identifier.
#[tactic(auto, unfolding(crate::specs::Balancer::sum_line))]
fn push_sum(text: &mut String, place: usize) -> Result<(), AllocError>
    ensures { OnOk result (string_bytes text.new ≡ string_bytes text.old ++ sum_line place) }
{
    write!(
        text,
        "    tcp-request content set-var(txn.sum) var(txn.id),bytes({place},1),be2dec(,1),add(txn.sum) if {{ var(txn.id),length gt {place} }}\n"
    )
}

/// The lines that add the bytes of an identifier.
#[tactic(auto, unfolding(crate::specs::Balancer::byte_lines))]
fn push_bytes(text: &mut String) -> Result<(), NoMemory>
    ensures { OnOk result (string_bytes text.new ≡ string_bytes text.old ++ byte_lines) }
{
    for place in 0..LONGEST_CLIENT {
        push_sum(text, place)?;
    }
    Ok(())
}

/// The line that begins a sum with zero.
#[tactic(auto, unfolding(crate::specs::Balancer::zero_line))]
fn push_zero(text: &mut String) -> Result<(), AllocError>
    ensures { OnOk result (string_bytes text.new ≡ string_bytes text.old ++ zero_line) }
{
    text.push_str("    tcp-request content set-var(txn.sum) int(0)\n")
}

/// The lines that sum up the bytes of an identifier.
fn push_sums(text: &mut String) -> Result<(), NoMemory>
    ensures { OnOk result (string_bytes text.new ≡ string_bytes text.old ++ sum_lines) }
{
    push_zero(text)?;
    push_bytes(text)?;
    Ok(())
}

/// A line by which a node of this name and number, of so many, gets what begins with no prefix.
#[tactic(auto, unfolding(crate::specs::Balancer::rest))]
fn push_rest_to(text: &mut String, name: &str, nodes: u16, number: u16) -> Result<(), AllocError>
    ensures { OnOk result (string_bytes text.new ≡ string_bytes text.old ++ rest name.now nodes number) }
{
    write!(
        text,
        "    use-server {name} if {{ var(txn.id),length gt 0 }} {{ var(txn.sum),mod({nodes}) eq {number} }}\n"
    )
}

/// The line of the identifiers without a prefix whose home a node is.
#[tactic(auto, unfolding(crate::specs::Balancer::rest_line))]
fn push_rest(text: &mut String, homes: &HomeTable, number: u16) -> Result<(), NoMemory>
    ensures { OnOk result (string_bytes text.new ≡ string_bytes text.old ++ rest_line homes.now number) }
{
    push_rest_to(text, name_of(homes, number), homes.nodes(), number)?;
    Ok(())
}

/// The lines of the identifiers without a prefix.
fn push_rests(text: &mut String, homes: &HomeTable) -> Result<(), NoMemory>
    ensures { OnOk result (string_bytes text.new ≡ string_bytes text.old ++ lines_below (rest_line homes.now) (length homes.now.nodes)) }
{
    for number in 0..homes.nodes() {
        push_rest(text, homes, number)?;
    }
    Ok(())
}

/// The line of a node, with its address.
#[tactic(auto, unfolding(crate::specs::Balancer::server_line))]
fn push_server(
    alloc: Global,
    text: &mut String,
    homes: &HomeTable,
    number: u16,
) -> Result<(), NoMemory>
    ensures { OnOk result (string_bytes text.new ≡ string_bytes text.old ++ server_line homes.now number) }
{
    let name = name_of(homes, number);
    write!(text, "    server {name} ")?;
    push_word(alloc, text, address_of(homes, number))?;
    text.push_str(" check\n")?;
    Ok(())
}

/// The lines of the nodes.
fn push_servers(alloc: Global, text: &mut String, homes: &HomeTable) -> Result<(), NoMemory>
    ensures { OnOk result (string_bytes text.new ≡ string_bytes text.old ++ lines_below (server_line homes.now) (length homes.now.nodes)) }
{
    for number in 0..homes.nodes() {
        push_server(alloc, text, homes, number)?;
    }
    Ok(())
}

/// The first line, which tells the version of the table.
#[tactic(auto, unfolding(crate::specs::Balancer::heading))]
fn push_heading(text: &mut String, version: u32) -> Result<(), NoMemory>
    ensures { OnOk result (string_bytes text.new ≡ string_bytes text.old ++ heading version) }
{
    writeln!(
        text,
        "# Sends each client to its home, by version {version} of the table of homes."
    )?;
    Ok(())
}

/// How the text begins.
#[tactic(auto, unfolding(crate::specs::Balancer::opening))]
fn push_opening(text: &mut String, homes: &HomeTable) -> Result<(), NoMemory>
    ensures { OnOk result (string_bytes text.new ≡ string_bytes text.old ++ opening homes.now.version) }
{
    push_heading(text, homes.version())?;
    text.push_str(
        "backend homes\n    mode tcp\n    balance leastconn\n    option persist\n    tcp-request inspect-delay 10s\n    tcp-request content reject unless { req.payload(0,0),mqtt_is_valid }\n    tcp-request content set-var(txn.id) req.payload(0,0),mqtt_field_value(connect,client_identifier)\n",
    )?;
    Ok(())
}

/// Whether a home has the empty prefix.
fn has_empty(listed: &[Home]) -> bool
    ensures { result ≡ list_any (λ home. length home.prefix.bytes.items == 0) listed.now }
{
    listed.iter().any(|home| home.prefix.as_str().is_empty())
}

/// Whether a home is that of all identifiers that begin with no other prefix.
fn has_rest(listed: &[Home]) -> bool
    ensures { result ≡ list_any is_rest (map placed listed.now) }
{
    has_empty(listed)
}

/// The lines that sum up the bytes of an identifier, where some have no prefix.
fn push_sums_if(text: &mut String, has_rest: bool) -> Result<(), NoMemory>
    ensures { OnOk result (string_bytes text.new ≡ string_bytes text.old ++ sum_lines_if has_rest) }
{
    if has_rest { Ok(()) } else { push_sums(text) }
}

/// The lines of the identifiers without a prefix, where there are some.
fn push_rests_if(text: &mut String, homes: &HomeTable, has_rest: bool) -> Result<(), NoMemory>
    ensures { OnOk result (string_bytes text.new ≡ string_bytes text.old ++ rest_lines_if homes.now has_rest) }
{
    if has_rest {
        Ok(())
    } else {
        push_rests(text, homes)
    }
}

/// The text of a backend `homes` of HAProxy (2.5 or newer), which sends each client to its home by a table and its homes.
pub fn balancer_text(alloc: Global, homes: &HomeTable, listed: &[Home]) -> Result<String, NoMemory>
    ensures { IfOk result (λ text. string_bytes text ≡ balancer_text homes.now (map placed listed.now)) }
{
    let has_rest = has_rest(listed);
    let mut text = String::new(alloc);
    push_opening(&mut text, homes)?;
    push_sums_if(&mut text, has_rest)?;
    push_all_given(&mut text, homes)?;
    push_ordered(alloc, &mut text, homes, listed)?;
    push_rests_if(&mut text, homes, has_rest)?;
    push_servers(alloc, &mut text, homes)?;
    Ok(text)
}
