// Why a stream is refused, and where.
use std::alloc::{AllocError, AllocFailed};
use thiserror::Error;

/// Why a decoder takes no more of a stream. A place counts the bytes of the stream from 0, up to
/// `u64::MAX`, and is that of the first byte at which one of the rules applies, tried in this
/// order.
///
/// - `TooLong`: the byte would make the unfinished message longer than the decoder's limit.
/// - `Malformed`: with this byte the message begins no dictionary of the grammar (an integer leaves
///   its 64 bits, a zero leads, a key is no string, the message is no dictionary), or the byte ends
///   the spelling of a key that stood before in its dictionary.
/// - `TooLong`: the byte is a digit that makes a string's length greater than the limit.
/// - `TooDeep`: the byte opens a list or dictionary at nesting 65; the message itself is at 1.
///
/// `NoMemory` is no fault of the stream: nothing has changed, and the same piece may be fed again.
#[derive(Clone, Copy, Debug, PartialEq, Eq, Error)]
pub enum WireFault {
    #[error("out of memory")]
    NoMemory,
    #[error("malformed input at {0}")]
    Malformed(u64),
    #[error("message too long at {0}")]
    TooLong(u64),
    #[error("message too deep at {0}")]
    TooDeep(u64),
}

// What a byte met, without its place.
#[derive(Clone, Copy)]
pub(crate) enum WireFaultKind {
    NoMemory,
    Malformed,
    TooLong,
    TooDeep,
}

impl WireFaultKind {
    ghost use Rattle.std.specs.Prelude.{◌≡◌};
    ghost use Rattle.bencode_wire.specs.Inside.Refusals.{refusal_at};

    pub(crate) fn at(self, place: u64) -> WireFault
        ensures { result ≡ refusal_at self place }
    {
        match self {
            WireFaultKind::NoMemory => WireFault::NoMemory,
            WireFaultKind::Malformed => WireFault::Malformed(place),
            WireFaultKind::TooLong => WireFault::TooLong(place),
            WireFaultKind::TooDeep => WireFault::TooDeep(place),
        }
    }
}

impl From<AllocError> for WireFaultKind {
    ghost use Rattle.std.specs.Prelude.{◌≡◌};
    ghost use Rattle.bencode_wire.specs.declared.fault.WireFaultKind.TheVariants.{NoMemory};

    ghost from_gives = { λ _ e. e ≡ NoMemory };

    fn from(_e: AllocError) -> WireFaultKind {
        WireFaultKind::NoMemory
    }
}

impl<T: Drop> From<AllocFailed<T>> for WireFaultKind {
    ghost use Rattle.std.specs.Prelude.{◌≡◌};
    ghost use Rattle.bencode_wire.specs.declared.fault.WireFaultKind.TheVariants.{NoMemory};

    ghost from_gives = { λ _ e. e ≡ NoMemory };

    fn from(_e: AllocFailed<T>) -> WireFaultKind {
        WireFaultKind::NoMemory
    }
}
