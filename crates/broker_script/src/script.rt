//! A whole script.

ghost use Rattle.std.specs.Prelude.{◌≡◌, ◌⊎◌, ◌↔◌, ◌<◌, ◌++◌, [], ◌∷◌, true, false, ℕ, map, length, IsTrue, IfOk, IfErr, MatchResult};
ghost use Rattle.broker_script.specs.Line.{lines, line_words, is_kept};
ghost use Rattle.broker_script.specs.Script.{IsText, IsSound, IsScript, Begins, Reads, Refuses, StopsAt, FaultsAt};
ghost use Rattle.broker_script.specs.declared.fault.ScriptFault.TheVariants.{NotText, Line, NoMemory};

use crate::command::Command;
use crate::fault::ScriptFault;
use crate::line::parse_line;
use crate::word::lines_of;
use std::alloc::{AllocError, Global};

/// The most bytes of a file that is read whole: of a script, and of a configuration.
pub const LONGEST_FILE: usize = 16_777_216;

/// Whether a line isn't skipped: it isn't empty and isn't a comment.
fn is_kept(line: &str) -> bool
    ensures { result ≡ is_kept line.now }
{
    match line.as_bytes() {
        [] | [b'#', ..] => false,
        _ => true,
    }
}

/// Whether a command may follow these.
fn may_follow(commands: &[Command], next: &Command) -> bool
    requires { IsSound commands.now }
    ensures { IsTrue result ↔ IsSound (commands.now ++ next.now ∷ []) }
{
    match commands.split_first() {
        None => 1 <= next.count() && next.count() <= 8,
        Some((first, rest)) => next.fits(first.count()) && next.comes_after(rest),
    }
}

/// Reads one line after `commands`, and answers false where it can't go on.
fn read_line(alloc: Global, line: &str, commands: &mut Vec<Command>) -> Result<bool, AllocError>
    requires { IsSound commands.old.items }
    ensures read { IfOk result (λ b. b ≡ true →
        Reads line.now commands.old.items commands.new.items) }
    ensures fault { IfOk result (λ b. b ≡ false → Refuses line.now commands.old.items) }
{
    if !is_kept(line) {
        return Ok(true);
    }
    let Some(command) = parse_line(alloc, line)? else {
        return Ok(false);
    };
    if !may_follow(commands, &command) {
        return Ok(false);
    }
    commands.push(command)?;
    Ok(true)
}

/// The commands of a text, line after line.
fn parse_text(alloc: Global, text: &str) -> Result<Vec<Command>, ScriptFault>
    ensures ok { IfOk result (λ v.
        Begins text.now (length (lines text.now)) v.items × (0 < length v.items)) }
    ensures fault { IfErr result (λ fault. (fault ≡ NoMemory)
        ⊎ ((k : ℕ) × (fault ≡ Line k) × StopsAt text.now k)) }
{
    let lines = lines_of(alloc, text)?;
    let mut commands = Vec::new(alloc);
    for (i, line) in lines.iter().enumerate() {
        if !read_line(alloc, line, &mut commands)? {
            return Err(ScriptFault::Line(i + 1));
        }
    }
    if commands.is_empty() {
        return Err(ScriptFault::Line(1));
    }
    Ok(commands)
}

/// The commands of a script.
///
/// # Errors
/// `NotText` exactly where the script is longer than `LONGEST_FILE` or has a byte above 127; else
/// `Line` with the number, from 1, of the first line that can't go on from the lines before it, and
/// with 1 where each line is skipped; `NoMemory` where memory runs out.
pub fn parse_script(alloc: Global, script: &[u8]) -> Result<Vec<Command>, ScriptFault>
    ensures ok { IfOk result (λ v. IsScript script.now v.items) }
    ensures read { (commands : _) → IsScript script.now commands → MatchResult result
        (λ v. map line_words v.items ≡ map line_words commands) (λ fault. fault ≡ NoMemory) }
    ensures not_text { (result ≡ Err NotText) ↔ ¬ (IsText script.now) }
    ensures line { (k : ℕ) → result ≡ Err (Line k) → FaultsAt script.now k }
    ensures fault { (k : ℕ) → FaultsAt script.now k →
        (result ≡ Err (Line k)) ⊎ (result ≡ Err NoMemory) }
{
    if script.len() > LONGEST_FILE || !script.is_ascii() {
        return Err(ScriptFault::NotText);
    }
    match str::from_utf8(script) {
        Ok(text) => parse_text(alloc, text),
        Err(_) => Err(ScriptFault::NotText),
    }
}
