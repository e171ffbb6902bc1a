// What a store answers to an accepted put, and what it refuses.
ghost use Rattle.std.specs.Prelude.{◌≡◌};
ghost use Rattle.store.specs.Faults.{number_of, address_of, path_of};
ghost use Rattle.store.specs.declared.fault.StoreFault.TheVariants.{Memory as unfound};

use digest::Address;
use std::alloc::{AllocError, AllocFailed};
use std::error::Error;
use std::fmt;

// What a store answers to an accepted put: the chunk was there, or it was added.
#[derive(Clone, Copy, Debug, PartialEq, Eq)]
pub enum Put {
    Held(Address),
    Taken(Address),
}

// The parts that a fault can start at and pass on its way up.
#[derive(Clone, Copy, Debug, PartialEq, Eq)]
pub enum Part {
    Store,
    Tree,
    History,
    Repository,
}

impl fmt::Display for Part {
    fn fmt<W: fmt::Write>(&self, f: &mut fmt::Formatter<W>) -> fmt::Result {
        f.write_str(match self {
            Part::Store => "store",
            Part::Tree => "tree",
            Part::History => "history",
            Part::Repository => "repository",
        })
    }
}

// What a store refuses. Where a chunk is concerned, the fault has its address.
#[derive(Clone, Copy, Debug, PartialEq, Eq)]
pub enum StoreFault {
    TooLong,
    Collision(Address),
    Bad(Address),
    NoRoom(Address),
    Absent(Address),
    Short(Address),
    Stale,
    Memory,
}

impl StoreFault {
    // The number of the refusal, by which operators know it; code matches on the enum.
    pub fn number(self) -> u8
        ensures { result ≡ number_of self }
    {
        match self {
            StoreFault::TooLong => 1,
            StoreFault::Collision(_) => 2,
            StoreFault::Bad(_) => 3,
            StoreFault::NoRoom(_) => 4,
            StoreFault::Absent(_) => 5,
            StoreFault::Short(_) => 6,
            StoreFault::Stale => 7,
            StoreFault::Memory => 8,
        }
    }

    // The address of the chunk that was refused, or zero: where it is printed every refusal has one.
    pub fn address(self) -> Address
        ensures { result ≡ address_of self }
    {
        match self {
            StoreFault::Collision(a)
            | StoreFault::Bad(a)
            | StoreFault::NoRoom(a)
            | StoreFault::Absent(a)
            | StoreFault::Short(a) => a,
            StoreFault::TooLong | StoreFault::Stale | StoreFault::Memory => Address::ZERO,
        }
    }

    // The parts that it passed, in their order.
    pub fn path(self) -> &'static [Part]
        ensures { result.now ≡ path_of self }
    {
        &[Part::Store]
    }
}

// By hand, and both, since the library has two errors: no derive says in a clause which fault `?` makes.
impl From<AllocError> for StoreFault {
    ghost from_gives = { λ _ f. f ≡ unfound };

    fn from(_: AllocError) -> StoreFault {
        StoreFault::Memory
    }
}

impl<T: Drop> From<AllocFailed<T>> for StoreFault {
    ghost from_gives = { λ _ f. f ≡ unfound };

    fn from(_: AllocFailed<T>) -> StoreFault {
        StoreFault::Memory
    }
}

// The number, the address and the parts, with a blank between.
impl fmt::Display for StoreFault {
    fn fmt<W: fmt::Write>(&self, f: &mut fmt::Formatter<W>) -> fmt::Result {
        let number = self.number();
        let address = self.address();
        write!(f, "{number} {address}")?;
        for part in self.path() {
            write!(f, " {part}")?;
        }
        Ok(())
    }
}

impl Error for StoreFault {}
