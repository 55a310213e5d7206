//! The key of a source, by its path and the folders of sources.
ghost use Rattle.std.specs.Prelude.{◌≡◌, option_copied, string_bytes, IfOk};
ghost use Rattle.machine_model.specs.Breakpoints.{behind_root, behind_roots, behind_slash, key_of, short_key};
ghost use Rattle.machine_model.specs.Breakpoints.{slash_for, slashed, trimmed};

use std::alloc::Global;
use wire_core::{NoMemory, Text};

/// So many bytes may a key or a name have, as many as the body of a frame (JDWP, EventRequest command set, Set,
/// ClassMatch).
pub const LONGEST_KEY: usize = 16777216;

fn slash_for(char: char) -> char
    ensures { result ≡ slash_for char }
{
    if char == '\\' { '/' } else { char }
}

// A path with `/` between its parts.
fn slashed(alloc: Global, path: &str) -> Result<String, NoMemory>
    ensures { IfOk result (λ text. string_bytes text ≡ slashed path.now) }
{
    let mut text = String::new(alloc);
    for char in path.chars() {
        text.push(slash_for(char))?;
    }
    Ok(text)
}

/// A folder without the `/` at its end, where it has one (DAP specification, Types, Source, path).
pub fn trimmed(root: &[u8]) -> &[u8]
    ensures { result.now ≡ trimmed root.now }
{
    let (front, last) = root.split_at(root.len().saturating_sub(1));
    if last == b"/".as_slice() { front } else { root }
}

fn behind_slash(path: &[u8]) -> Option<&[u8]>
    ensures { option_copied result ≡ behind_slash path.now }
{
    match path {
        [b'/', rest @ ..] => Some(rest),
        _ => None,
    }
}

// What stands behind a folder and a `/`, where a path begins with both.
fn behind_root<'a>(root: &[u8], path: &'a [u8]) -> Option<&'a [u8]>
    ensures { option_copied result ≡ behind_root root.now path.now }
{
    behind_slash(path.strip_prefix(root)?)
}

// That of the first folder that a path stands in.
fn behind_roots<'a>(
    alloc: Global,
    roots: &[Text],
    path: &'a [u8],
) -> Result<Option<&'a [u8]>, NoMemory>
    ensures { IfOk result (λ found. option_copied found ≡ behind_roots roots.now path.now) }
{
    for root in roots {
        let folder = slashed(alloc, root.as_str())?;
        let found = behind_root(trimmed(folder.as_bytes()), path);
        if found.is_some() {
            return Ok(found);
        }
    }
    Ok(None)
}

// The text of a key. A key stands behind a `/` in a text, so that it is UTF-8, and memory alone is refused.
fn key_text(alloc: Global, key: &[u8]) -> Result<Text, NoMemory>
    ensures { IfOk result (λ text. text ≡ key.now) }
{
    match Text::from_slice(alloc, key) {
        Ok(text) => Ok(text),
        Err(_) => Err(NoMemory),
    }
}

fn short_key(alloc: Global, key: Option<&[u8]>) -> Result<Option<Text>, NoMemory>
    ensures { IfOk result (λ short. short ≡ short_key (option_copied key.entry)) }
{
    let Some(key) = key else {
        return Ok(None);
    };
    if key.len() > LONGEST_KEY {
        return Ok(None);
    }
    Ok(Some(key_text(alloc, key)?))
}

/// The key of a source, by the folders of sources and its path: the path behind the first folder that it stands in,
/// with `/` between its parts; `None` exactly where it stands in none, or the key is longer than 2^24 bytes. `NoMemory`
/// comes where memory is refused (DAP specification, Types, Source, path).
#[tactic(auto, unfolding(machine_model::specs::Breakpoints::key_of))]
pub fn key_of(alloc: Global, roots: &[Text], path: &str) -> Result<Option<Text>, NoMemory>
    ensures { IfOk result (λ key. key ≡ key_of roots.now path.now) }
{
    let path = slashed(alloc, path)?;
    let key = behind_roots(alloc, roots, path.as_bytes())?;
    short_key(alloc, key)
}
