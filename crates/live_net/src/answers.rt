//! What the answers of the system mean.

ghost use Rattle.std.specs.Prelude.{◌≡◌, is_ok};
ghost use Rattle.live_net.specs.Answers.{MeansSent, MeansTaken, begun_as, means_ready};

use crate::addresses::address_of;
use crate::failures::is_own;
use crate::refusals::Refused;
use dcp_net::{Done, Taken, Waited};
use std::io;
use std::net::SocketAddr;

/// What the answer to a send means: it fails where the own socket does. What the network or a peer refuses,
/// and what would wait, is lost.
pub(crate) fn done_of(answer: &io::Result<usize>) -> Done
    ensures { MeansSent result answer.now }
{
    match answer {
        Ok(_) => Done::Ok,
        Err(error) => {
            if is_own(error) {
                Done::Failed
            } else {
                Done::Ok
            }
        }
    }
}

/// What the answer to a take means: a datagram of a sender by IPv4, or none.
pub(crate) fn taken_of(answer: &io::Result<(usize, SocketAddr)>) -> Taken
    ensures { MeansTaken result answer.now }
{
    match answer {
        Ok((len, socket)) => match address_of(*socket) {
            Some(from) => Taken::Gram { from, len: *len },
            None => Taken::Nothing,
        },
        Err(error) => {
            if is_own(error) {
                Taken::Failed
            } else {
                Taken::Nothing
            }
        }
    }
}

/// What the answer to a wait means.
pub(crate) fn waited_of(answer: &io::Result<()>) -> Waited
    ensures { means_ready result ≡ is_ok answer.now }
{
    match answer {
        Ok(()) => Waited::Ready,
        Err(_) => Waited::Failed,
    }
}

/// What it means for a network that its sockets were opened, or why they were not.
pub(crate) fn begun_of(opened: &Result<(), Refused>) -> Done
    ensures { result ≡ begun_as opened.now }
{
    match opened {
        Ok(()) => Done::Ok,
        Err(Refused::System) => Done::Failed,
        Err(Refused::OutOfMemory) => Done::OutOfMemory,
    }
}
