//! A socket for datagrams as a wait sees it.

use crate::answers::taken_of;
use crate::strangers::{MOST_DROPPED, is_strange};
use dcp_net::Taken;
use dcp_types::{Address, OutOfMemory};
use mio::net::UdpSocket;
use std::rc::{Rc, Weak};

/// A socket for datagrams as long as its end has it open, and the ends that are heard there.
#[derive(Drop)]
pub(crate) struct Mailbox {
    socket: Weak<UdpSocket>,
    all: Rc<Vec<Address>>,
}

impl Mailbox {
    /// The socket of an end that hears these ends.
    pub(crate) fn new(
        socket: &Rc<UdpSocket>,
        all: &Rc<Vec<Address>>,
    ) -> Result<Mailbox, OutOfMemory> {
        Ok(Mailbox {
            socket: Rc::downgrade(socket)?,
            all: all.clone()?,
        })
    }

    /// Whether its end has closed it.
    pub(crate) fn is_closed(&self) -> bool {
        self.socket.strong_count() == 0
    }

    /// Whether the next datagram comes from one of the ends, or the socket failed. Datagrams of strangers
    /// before it are dropped.
    pub(crate) fn has_mail(&self) -> bool {
        let Some(socket) = self.socket.upgrade() else {
            return false;
        };
        for _ in 0..MOST_DROPPED {
            let next = taken_of(&socket.peek_from(&mut [0; 1]));
            if !is_strange(&self.all, next) {
                return next != Taken::Nothing;
            }
            let _ = socket.recv_from(&mut [0; 1]);
        }
        false
    }
}
