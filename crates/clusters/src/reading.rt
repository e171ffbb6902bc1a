// A reading as a line of a cluster's file has it: tag, time in milliseconds, value, with a comma between them.
ghost use Rattle.std.specs.Prelude.{◌≡◌, ◌≤◌, IfOk, string_bytes, string_len};
ghost use Rattle.clusters.specs.Record.{record_bytes};

use std::alloc::{AllocError, Global};
use thiserror::Error;

// The longest tag, in bytes.
const LONGEST_TAG: usize = 32;

#[derive(Drop)]
pub struct Reading {
    pub(crate) tag: String,
    pub(crate) time: i64,
    pub(crate) value: i64,
    ghost short: { string_len tag ≤ 32 },
}

// What is wrong with a line.
#[derive(Clone, Copy, Debug, PartialEq, Eq, Error)]
pub enum Malformed {
    #[error("not text")]
    NotText,
    #[error("not three fields")]
    NotThreeFields,
    #[error("no tag")]
    NoTag,
    #[error("a tag of more than {longest} bytes", longest = LONGEST_TAG)]
    LongTag,
    #[error("the time is not a whole number")]
    Time,
    #[error("the value is not a whole number")]
    Value,
}

// Why a line gave no reading.
#[derive(Debug, PartialEq, Eq, Drop, Error)]
pub enum LineFault {
    #[error(transparent)]
    Malformed(#[from] Malformed),
    #[error("out of memory")]
    Memory(#[from(alloc)] AllocError),
}

// The three fields of a line.
fn fields(line: &str) -> Option<(&str, &str, &str)> {
    let (tag, rest) = line.split_once(',')?;
    let (time, value) = rest.split_once(',')?;
    if value.contains(',') {
        None
    } else {
        Some((tag, time, value))
    }
}

impl Reading {
    // The reading that a line has.
    pub fn parse(heap: Global, line: &[u8]) -> Result<Reading, LineFault> {
        let text = std::str::from_utf8(line).map_err(|_| Malformed::NotText)?;
        let (tag, time, value) = fields(text).ok_or(Malformed::NotThreeFields)?;
        if tag.is_empty() {
            return Err(Malformed::NoTag.into());
        }
        if tag.len() > LONGEST_TAG {
            return Err(Malformed::LongTag.into());
        }
        let time = time.parse::<i64>().map_err(|_| Malformed::Time)?;
        let value = value.parse::<i64>().map_err(|_| Malformed::Value)?;
        let tag = String::from_str(heap, tag)?;
        Ok(Reading { tag, time, value })
    }

    // The bytes of which its addresses are taken.
    pub fn bytes(&self, heap: Global) -> Result<Vec<u8>, AllocError>
        ensures { IfOk result (λ v. v.items ≡ record_bytes (string_bytes self.now.tag) self.now.time self.now.value) }
    {
        let mut bytes = Vec::new(heap);
        bytes.push(self.tag.len() as u8)?;
        bytes.extend_from_slice(self.tag.as_bytes())?;
        bytes.extend_from_slice(&self.time.to_be_bytes())?;
        bytes.extend_from_slice(&self.value.to_be_bytes())?;
        Ok(bytes)
    }
}
