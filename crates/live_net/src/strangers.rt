//! Who is no end of the scenario.

ghost use Rattle.std.specs.Prelude.{◌≡◌};
ghost use Rattle.live_net.specs.Strangers.{is_end_of, is_strange};

use dcp_net::Taken;
use dcp_types::Address;

/// How many datagrams of strangers one take drops at most, and one look of a wait at a socket.
pub(crate) const MOST_DROPPED: u32 = 256;

/// Whether an end is at this address.
pub(crate) fn is_end_of(all: &[Address], from: Address) -> bool
    ensures { result ≡ is_end_of all.now from }
{
    all.contains(&from)
}

/// Whether a stranger sent what was taken.
pub(crate) fn is_strange(all: &[Address], taken: Taken) -> bool
    ensures { result ≡ is_strange all.now taken }
{
    match taken {
        Taken::Gram { from, len: _ } => !is_end_of(all, from),
        Taken::Nothing | Taken::Failed | Taken::OutOfMemory => false,
    }
}
