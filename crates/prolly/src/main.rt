// The shell: reads a script from standard input, one call a line, and prints one line for each. What the library answers, it prints.
#![tactic(auto)]

mod command;
mod hexadecimal;

ghost use Rattle.std.specs.Prelude.{◌≡◌};
ghost use Rattle.prolly.specs.Named.{named_address};

use anyhow::bail;
use command::{Command, DigestName, parse};
use digest::{Address, Digest, Fnv64, Sha256};
use std::env;
use std::io::{BufRead, BufReader};

// A match, since the names are a closed enum and the digest of each is a type of its own.
fn address_of(digest: DigestName, bytes: &[u8]) -> Address
    ensures { result ≡ named_address digest bytes.now }
{
    match digest {
        DigestName::Sha256 => Sha256::digest(bytes),
        DigestName::Fnv => Fnv64::digest(bytes),
    }
}

fn execute(rt: &HostRuntime, command: Command) -> anyhow::Result<()> {
    match command {
        Command::Digest(digest, bytes) => {
            let address = address_of(digest, bytes.as_slice());
            println!(rt; "ok {address}")?;
        }
    }
    Ok(())
}

fn run(rt: &HostRuntime) -> anyhow::Result<()> {
    if env::args(rt)?.count() > 1 {
        bail!("prolly takes no arguments: it reads a script from standard input");
    }
    for line in BufReader::new(rt.alloc(), rt.stdin())?.split(rt.alloc(), b'\n') {
        match parse(rt.alloc(), line?.as_slice()) {
            Ok(Some(command)) => execute(rt, command)?,
            Ok(None) => {}
            Err(error) => println!(rt; "error: {error}")?,
        }
    }
    Ok(())
}

fn main(rt: HostRuntime) -> anyhow::Result<()> {
    run(&rt)
}
