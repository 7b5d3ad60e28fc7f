//! Room for one datagram.

ghost use Rattle.std.specs.Prelude.{◌≡◌, replicate};

/// The longest datagram that a network gives.
const LONGEST: usize = 1025;

/// The room that datagrams are taken into.
#[derive(Drop)]
pub struct Room {
    pub bytes: [u8; LONGEST],
}

impl Room {
    /// Room in which nothing was taken yet.
    pub fn new() -> Room
        ensures { result.bytes ≡ replicate 1025 0 }
    {
        Room {
            bytes: [0; LONGEST],
        }
    }
}
