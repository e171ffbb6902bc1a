// What the tree refuses.
ghost use Rattle.std.specs.Prelude.{◌≡◌};
ghost use Rattle.node.specs.Faults.{tree_number, tree_address, tree_path};
ghost use Rattle.node.specs.declared.fault.TreeFault.TheVariants.{Store as wrapped, Memory as unfound};

use digest::Address;
use std::alloc::AllocError;
use std::error::Error;
use std::fmt;
use store::{Part, StoreFault};

// A refusal of the tree: the store's, carried whole, or its own.
#[derive(Clone, Copy, Debug, PartialEq, Eq)]
pub enum TreeFault {
    Store(StoreFault),
    Malformed,
    Unordered,
    Full,
    Memory,
}

// Both by hand: a derived `From` has no `from_gives`, which clauses that name the error of a `?` need.
impl From<StoreFault> for TreeFault {
    ghost from_gives = { λ f t. t ≡ wrapped f };

    fn from(fault: StoreFault) -> TreeFault {
        TreeFault::Store(fault)
    }
}

impl From<AllocError> for TreeFault {
    ghost from_gives = { λ _ t. t ≡ unfound };

    fn from(_: AllocError) -> TreeFault {
        TreeFault::Memory
    }
}

impl TreeFault {
    // The number of the refusal, by which operators know it; code matches on the enum.
    pub fn number(self) -> u8
        ensures { result ≡ tree_number self }
    {
        match self {
            TreeFault::Store(fault) => fault.number(),
            TreeFault::Malformed | TreeFault::Unordered => 33,
            TreeFault::Full => 17,
            TreeFault::Memory => 8,
        }
    }

    // The address of the chunk that was refused, or zero.
    pub fn address(self) -> Address
        ensures { result ≡ tree_address self }
    {
        match self {
            TreeFault::Store(fault) => fault.address(),
            _ => Address::ZERO,
        }
    }

    // The parts that it passed, in their order.
    pub fn path(self) -> &'static [Part]
        ensures { result.now ≡ tree_path self }
    {
        match self {
            TreeFault::Store(_) => &[Part::Store, Part::Tree],
            _ => &[Part::Tree],
        }
    }
}

// The number, the address and the parts, with a blank between: a store's fault has passed the tree, and the others start there.
impl fmt::Display for TreeFault {
    fn fmt<W: fmt::Write>(&self, f: &mut fmt::Formatter<W>) -> fmt::Result {
        match self {
            TreeFault::Store(fault) => write!(f, "{fault}")?,
            _ => write!(f, "{} {}", self.number(), self.address())?,
        }
        write!(f, " {}", Part::Tree)
    }
}

impl Error for TreeFault {}
