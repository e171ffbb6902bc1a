// A line of a script, taken apart into the call that it asks for.
ghost use Rattle.std.specs.Prelude.{◌≡◌, IfOk};
ghost use Rattle.prolly.specs.Hexadecimal.{Spells};
ghost use Rattle.prolly.specs.Named.{word_of};

use crate::hexadecimal::{HexFault, decode};
use std::alloc::{AllocError, Global};
use thiserror::Error;

// The digests by the names that a script gives them.
#[derive(Clone, Copy, Debug, PartialEq, Eq)]
pub enum DigestName {
    Sha256,
    Fnv,
}

#[derive(Debug, PartialEq, Eq, Drop)]
pub enum Command {
    Digest(DigestName, Vec<u8>),
}

// What is wrong with a line, in plain words.
#[derive(Debug, PartialEq, Eq, Drop, Error)]
pub enum LineError {
    #[error("the line is not text")]
    NotText,
    #[error("words are separated by single blanks")]
    Blanks,
    #[error("there is no call {0}")]
    NoSuchCall(String),
    #[error("digest takes a digest and a byte string, but {0} words follow it")]
    DigestWords(usize),
    #[error("there is no digest {0}, only sha256 and fnv")]
    NoSuchDigest(String),
    #[error(transparent)]
    Digits(#[from] HexFault),
    #[error("out of memory")]
    Memory(#[from(alloc)] AllocError),
}

// The words of a line.
fn words_of(heap: Global, text: &str) -> Result<Vec<&str>, LineError> {
    text.split(' ')
        .map(|word| -> Result<&str, LineError> {
            if word.is_empty() {
                Err(LineError::Blanks)
            } else {
                Ok(word)
            }
        })
        .try_collect(heap)
}

fn digest_name(heap: Global, word: &str) -> Result<DigestName, LineError>
    ensures { IfOk result (λ d. word_of d ≡ word.now) }
{
    match word {
        "sha256" => Ok(DigestName::Sha256),
        "fnv" => Ok(DigestName::Fnv),
        _ => Err(LineError::NoSuchDigest(String::from_str(heap, word)?)),
    }
}

// A byte string: `-` for the empty one, else hexadecimal digits.
fn byte_string(heap: Global, word: &str) -> Result<Vec<u8>, LineError>
    ensures { IfOk result (λ v. Spells word.now v.items) }
{
    if word == "-" {
        return Ok(Vec::new(heap));
    }
    Ok(decode(heap, word.as_bytes())?)
}

fn digest_call(heap: Global, arguments: &[&str]) -> Result<Command, LineError> {
    let [name, bytes] = arguments else {
        return Err(LineError::DigestWords(arguments.len()));
    };
    Ok(Command::Digest(digest_name(heap, *name)?, byte_string(heap, *bytes)?))
}

// The call that a line asks for, or none where it is blank or a comment.
pub fn parse(heap: Global, line: &[u8]) -> Result<Option<Command>, LineError> {
    let text = std::str::from_utf8(line).map_err(|_| LineError::NotText)?;
    if text.starts_with('#') || text.bytes().all(|byte| byte == b' ') {
        return Ok(None);
    }
    match words_of(heap, text)?.as_slice() {
        [] => Ok(None),
        ["digest", arguments @ ..] => Ok(Some(digest_call(heap, arguments)?)),
        [other, ..] => Err(LineError::NoSuchCall(String::from_str(heap, other)?)),
    }
}
