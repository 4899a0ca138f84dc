// Why octets don't move.
use io_ports::NoMemory;
use std::error::Error;
use std::fmt;

/// Why a place doesn't take octets. Nothing has moved.
#[derive(Clone, Copy, Debug, PartialEq, Eq)]
pub enum OfferFault {
    /// The place is a Hold, and the octets would pass its limit.
    TooLarge,
    /// There was no memory for them.
    NoMemory,
}

impl From<NoMemory> for OfferFault {
    ghost use Rattle.std.specs.Prelude.{◌≡◌};
    ghost use Rattle.filter_chain.specs.declared.fault.OfferFault.{OfferFault};
    ghost use Rattle.filter_chain.specs.declared.fault.OfferFault.TheVariants.{NoMemory};

    ghost from_gives = { λ _ e. e ≡ NoMemory };

    fn from(_: NoMemory) -> Self {
        OfferFault::NoMemory
    }
}

impl fmt::Display for OfferFault {
    fn fmt<W: fmt::Write>(&self, f: &mut fmt::Formatter<W>) -> fmt::Result {
        f.write_str(match self {
            OfferFault::TooLarge => "the octets would pass the limit of a Hold",
            OfferFault::NoMemory => "out of memory",
        })
    }
}

impl Error for OfferFault {}
