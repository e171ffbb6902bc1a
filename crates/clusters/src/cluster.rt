// A cluster: the readings of its file, each kept as a chunk in a store.
ghost use Rattle.std.specs.Prelude.{◌≡◌};
ghost use Rattle.digest.specs.Fnv.{fnv64_address};
ghost use Rattle.digest.specs.Sha256.{sha256_address};
ghost use Rattle.clusters.specs.Standing.{standing_of};

use crate::reading::{LineFault, Reading};
use crate::refusal::show_refusal;
use digest::{Address, Digest, Fnv64, Sha256};
use std::collections::BTreeMap;
use std::fs::File;
use std::io::{BufRead, BufReader};
use store::{ChunkStore, Put};

// Where a reading belongs.
#[derive(PartialEq, Eq, PartialOrd, Ord, Drop)]
pub struct Place {
    pub tag: String,
    pub time: i64,
}

// The value that stands at a place, and the addresses of its bytes.
#[derive(Clone, Copy, Debug, PartialEq, Eq)]
pub struct Record {
    pub value: i64,
    pub sha256: Address,
    pub fnv64: Address,
}

// How a record stands to what the other cluster has at its place: the same record, another one, which it carries, or none.
#[derive(Clone, Copy, Debug, PartialEq, Eq)]
pub enum Standing {
    Same,
    Differs(Record),
    Alone,
}

impl Record {
    // The record of a value whose bytes are given.
    fn of(value: i64, bytes: &[u8]) -> Record
        ensures { result ≡ record { value = value; sha256 = sha256_address bytes.now; fnv64 = fnv64_address bytes.now } }
    {
        Record {
            value,
            sha256: Sha256::digest(bytes),
            fnv64: Fnv64::digest(bytes),
        }
    }

    // Equal addresses by both digests are one record.
    pub fn standing(self, other: Option<Record>) -> Standing
        ensures { result ≡ standing_of self other }
    {
        match other {
            Some(there) if self.sha256 == there.sha256 && self.fnv64 == there.fnv64 => {
                Standing::Same
            }
            Some(there) => Standing::Differs(there),
            None => Standing::Alone,
        }
    }
}

// How often something happened.
#[derive(Clone, Copy, Default)]
pub struct Counts {
    pub corrected: u32,
    pub malformed: u32,
    pub taken: u32,
    pub held: u32,
    pub refused: u32,
}

// What a cluster's file had.
#[derive(Drop)]
pub struct Cluster {
    pub records: BTreeMap<Place, Record>,
    pub counts: Counts,
}

impl Cluster {
    // Reads the file line by line and keeps each reading in the store. A malformed line is reported and left out.
    pub fn load<S: ChunkStore<Sha256>>(
        rt: &HostRuntime,
        path: &str,
        store: &mut S,
    ) -> anyhow::Result<Cluster> {
        let heap = rt.alloc();
        let mut cluster = Cluster {
            records: BTreeMap::new(heap),
            counts: Counts::default(),
        };
        let lines = BufReader::new(heap, File::open(rt, path)?)?.split(heap, b'\n');
        for (number, line) in (1u64..).zip(lines) {
            match Reading::parse(heap, line?.as_slice()) {
                Ok(reading) => cluster.enter(rt, store, reading)?,
                Err(LineFault::Malformed(fault)) => {
                    cluster.counts.malformed = cluster.counts.malformed.saturating_add(1);
                    println!(rt; "  {path}, line {number}, left out: {fault}")?;
                }
                Err(fault) => return Err(fault.into()),
            }
        }
        Ok(cluster)
    }

    // Keeps the reading and notes it in its place. One that is there already is corrected; a refused one is reported and left out.
    fn enter<S: ChunkStore<Sha256>>(
        &mut self,
        rt: &HostRuntime,
        store: &mut S,
        reading: Reading,
    ) -> anyhow::Result<()> {
        let bytes = reading.bytes(rt.alloc())?;
        match store.put(bytes.as_slice()) {
            Ok(Put::Taken(_)) => self.counts.taken = self.counts.taken.saturating_add(1),
            Ok(Put::Held(_)) => self.counts.held = self.counts.held.saturating_add(1),
            Err(fault) => {
                self.counts.refused = self.counts.refused.saturating_add(1);
                return show_refusal(rt, "a reading", fault);
            }
        }
        let Reading { tag, time, value } = reading;
        let record = Record::of(value, bytes.as_slice());
        if self.records.insert(Place { tag, time }, record)?.is_some() {
            self.counts.corrected = self.counts.corrected.saturating_add(1);
        }
        Ok(())
    }

    // The record at a place.
    pub fn at(&self, place: &Place) -> Option<Record> {
        self.records.get(place).copied()
    }

    // The sum of all values.
    pub fn total(&self) -> i128 {
        self.records
            .values()
            .map(|record| i128::from(record.value))
            .fold(0, i128::saturating_add)
    }
}
