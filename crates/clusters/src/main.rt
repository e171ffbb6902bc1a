// A pump maker's two clusters, north and south: reads the readings of both into stores, takes the address of each by both digests,
// lists which are the same, which differ and which only one of them has, and shows what a store refuses.
#![tactic(auto)]

mod cluster;
mod reading;
mod refusal;

use cluster::{Cluster, Counts, Place, Record, Standing};
use digest::{Address, Digest, Sha256};
use memory::MemoryTable;
use refusal::show_refusal;
use store::{ChunkStore, Fallback, RootedStore, Verifying};

// The first eight hexadecimal digits of both addresses tell records apart on a page.
fn show(rt: &HostRuntime, name: &str, place: &Place, record: Record) -> anyhow::Result<()> {
    let tag = place.tag.as_str();
    let time = place.time;
    let value = record.value;
    let sha256 = record.sha256.w0 >> 32;
    let fnv64 = record.fnv64.w0 >> 32;
    println!(rt;
        "  {tag:<14} {time} {name:<5} {value:>6}  sha256 {sha256:08x}  fnv64 {fnv64:08x}"
    )?;
    Ok(())
}

// Reads a cluster's file into its store, and says what that took.
fn load<S: ChunkStore<Sha256>>(
    rt: &HostRuntime,
    name: &str,
    path: &str,
    store: &mut S,
) -> anyhow::Result<Cluster> {
    println!(rt; "reading {name} from {path}")?;
    let before = store.free_units();
    let cluster = Cluster::load(rt, path, store)?;
    let records = cluster.records.len();
    let Counts {
        corrected,
        malformed,
        taken,
        held,
        refused,
    } = cluster.counts;
    println!(rt;
        "  {records} records; {corrected} lines corrected an earlier one, {malformed} could not be read"
    )?;
    let cost = before.saturating_sub(store.free_units());
    println!(rt;
        "  {taken} chunks taken for {cost} units, {held} held already, {refused} refused"
    )?;
    Ok(cluster)
}

// Reads each record back from its store by its address.
fn read_back<S: ChunkStore<Sha256>>(
    rt: &HostRuntime,
    name: &str,
    cluster: &Cluster,
    store: &mut S,
) -> anyhow::Result<()> {
    let mut count = 0u32;
    for record in cluster.records.values() {
        match store.get(record.sha256, &mut [0; 64]) {
            Ok(_) => count = count.saturating_add(1),
            Err(fault) => show_refusal(rt, name, fault)?,
        }
    }
    let records = cluster.records.len();
    println!(rt; "read back from {name}, each checked against its address: {count} of {records}")?;
    Ok(())
}

// Calls that a store has to refuse.
fn show_refusals<S: RootedStore<Sha256>>(
    rt: &HostRuntime,
    store: &mut S,
    known: Address,
) -> anyhow::Result<()> {
    println!(rt; "what refusals look like")?;
    if let Err(fault) = store.put(&[0; 2489]) {
        show_refusal(rt, "a chunk of 2489 bytes", fault)?;
    }
    if let Err(fault) = store.get(Sha256::digest(b"nobody put this"), &mut [0; 64]) {
        show_refusal(rt, "an address that has nothing", fault)?;
    }
    if let Err(fault) = store.get(known, &mut [0; 8]) {
        show_refusal(rt, "a buffer of 8 bytes", fault)?;
    }
    if let Err(fault) = store.set_root(known, known) {
        show_refusal(rt, "a root that is not the old one", fault)?;
    }
    Ok(())
}

// A store of one unit takes one chunk.
fn show_full(rt: &HostRuntime) -> anyhow::Result<()> {
    let mut small = MemoryTable::new(rt.alloc(), 512);
    let _ = <MemoryTable as ChunkStore<Sha256>>::put(&mut small, b"the first");
    if let Err(fault) = <MemoryTable as ChunkStore<Sha256>>::put(&mut small, b"the second") {
        show_refusal(rt, "a store of one unit that is full", fault)?;
    }
    Ok(())
}

// Gives `print` each record of `here` with how it stands to what `there` has at its place, and says how many it printed.
fn list<F: Fn(&Place, Record, Standing) -> anyhow::Result<bool>>(
    here: &Cluster,
    there: &Cluster,
    print: F,
) -> anyhow::Result<u32>
    requires { F.IsAlwaysCallable print }
{
    let mut count = 0u32;
    for (place, record) in here.records.iter() {
        let standing = record.standing(there.at(place));
        if print(place, *record, standing)? {
            count = count.saturating_add(1);
        }
    }
    Ok(count)
}

// Lists what only `here` has, and says how many that are.
fn list_alone(
    rt: &HostRuntime,
    name: &str,
    here: &Cluster,
    there: &Cluster,
) -> anyhow::Result<u32> {
    println!(rt; "only in {name}")?;
    list(here, there, |place, record, standing| {
        let alone = standing == Standing::Alone;
        if alone {
            show(rt, name, place, record)?;
        }
        Ok(alone)
    })
}

fn compare(rt: &HostRuntime, north: &Cluster, south: &Cluster) -> anyhow::Result<()> {
    println!(rt; "the same in both")?;
    let same = list(north, south, |place, record, standing| {
        let same = standing == Standing::Same;
        if same {
            show(rt, "both", place, record)?;
        }
        Ok(same)
    })?;
    println!(rt; "different")?;
    let differ = list(north, south, |place, record, standing| {
        let Standing::Differs(other) = standing else {
            return Ok(false);
        };
        show(rt, "north", place, record)?;
        show(rt, "south", place, other)?;
        Ok(true)
    })?;
    let only_north = list_alone(rt, "north", north, south)?;
    let only_south = list_alone(rt, "south", south, north)?;
    println!(rt;
        "{same} the same, {differ} different, {only_north} only in north, {only_south} only in south"
    )?;
    let north_total = north.total();
    let south_total = south.total();
    println!(rt; "the values of north add up to {north_total}, those of south to {south_total}")?;
    Ok(())
}

// North keeps its readings in one table; south has a live table over its archive. Both are checked on reading.
fn run(rt: &HostRuntime) -> anyhow::Result<()> {
    let heap = rt.alloc();
    let mut north_store = Verifying {
        inner: MemoryTable::new(heap, 1_048_576),
    };
    let north = load(rt, "north", "north.csv", &mut north_store)?;
    let mut archive = MemoryTable::new(heap, 1_048_576);
    let _ = load(rt, "the archive of south", "archive.csv", &mut archive)?;
    let front = MemoryTable::new(heap, 1_048_576);
    let mut south_store = Verifying {
        inner: Fallback {
            front,
            back: archive,
        },
    };
    let south = load(rt, "south", "south.csv", &mut south_store)?;
    compare(rt, &north, &south)?;
    read_back(rt, "north", &north, &mut north_store)?;
    read_back(rt, "south", &south, &mut south_store)?;
    if let Some(record) = south.records.values().next() {
        show_refusals(rt, &mut south_store, record.sha256)?;
    }
    show_full(rt)
}

fn main(rt: HostRuntime) -> anyhow::Result<()> {
    run(&rt)
}
