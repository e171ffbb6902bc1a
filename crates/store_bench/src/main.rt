// Puts and gets so many chunks of 456 bytes, one unit each, in a memory table, and says how long that took.
// What it did goes to standard output, which the gate compares; the times go to standard error, for bench/run.
#![tactic(auto)]

mod front;

use anyhow::Context;
use front::{Front, address_of};
use memory::MemoryTable;
use std::env;
use std::time::Instant;
use store::{ChunkStore, Put};

const CHUNK: usize = 456;

// The chunk of a number: its first 32 bytes, which are its address, are scattered by two odd factors.
fn chunk_of(number: u64) -> [u8; CHUNK] {
    let mut chunk = [0u8; CHUNK];
    let a = number.wrapping_mul(0x9e37_79b9_7f4a_7c15).to_be_bytes();
    let b = number.wrapping_mul(0xd1b5_4a32_d192_ed03).to_be_bytes();
    chunk[0..8].copy_from_slice(&a);
    chunk[8..16].copy_from_slice(&b);
    chunk
}

fn put_chunks(table: &mut MemoryTable, count: u64) -> usize {
    (0..count)
        .map(|number| <MemoryTable as ChunkStore<Front>>::put(table, &chunk_of(number)))
        .filter(|answer| matches!(answer, Ok(Put::Taken(_))))
        .count()
}

fn get_chunks(table: &mut MemoryTable, count: u64, buffer: &mut [u8]) -> usize {
    (0..count)
        .map(|number| {
            let address = address_of(&chunk_of(number));
            <MemoryTable as ChunkStore<Front>>::get(table, address, buffer)
        })
        .filter(|answer| answer.is_ok())
        .count()
}

fn run(rt: &HostRuntime) -> anyhow::Result<()> {
    let count = env::args(rt)?.nth(1).context("how many chunks?")?;
    let count = count.as_str().parse::<u64>()?;
    let mut table = MemoryTable::new(rt.alloc(), 536_870_912);
    let start = Instant::now(rt)?;
    let taken = put_chunks(&mut table, count);
    let put_time = start.elapsed(rt)?.as_nanos();
    let start = Instant::now(rt)?;
    let read = get_chunks(&mut table, count, &mut [0; CHUNK]);
    let get_time = start.elapsed(rt)?.as_nanos();
    println!(rt; "{taken} taken, {read} read")?;
    eprintln!(rt; "put {put_time} get {get_time}")?;
    Ok(())
}

fn main(rt: HostRuntime) -> anyhow::Result<()> {
    run(&rt)
}
