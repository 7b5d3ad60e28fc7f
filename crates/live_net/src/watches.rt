//! What networks of sockets share with the wait for them.

use crate::mailboxes::Mailbox;
use crate::refusals::Refused;
use crate::wakes::{DOOR, FIRST_MAILBOX, QUIET, STREAM};
use dcp_types::Address;
use mio::net::{TcpListener, TcpStream, UdpSocket};
use mio::unix::SourceFd;
use mio::{Interest, Registry, Token};
use std::alloc::Global;
use std::cell::{Cell, RefCell};
use std::io;
use std::os::fd::{AsRawFd, RawFd};
use std::rc::Rc;

/// The sockets that a wait watches, and what it has seen of them.
#[derive(Drop)]
pub(crate) struct Watch {
    registry: Registry,
    mailboxes: RefCell<Vec<Mailbox>>,
    knocks: Cell<u64>,
}

impl Watch {
    /// A watch of no socket.
    pub(crate) fn new(alloc: Global, registry: Registry) -> Watch {
        Watch {
            registry,
            mailboxes: RefCell::new(Vec::new(alloc)),
            knocks: Cell::new(0),
        }
    }

    /// How often somebody has knocked at a listener, as far as waits have seen it.
    pub(crate) fn knocks(&self) -> u64 {
        self.knocks.get()
    }

    /// Takes note of a knock at a listener.
    pub(crate) fn note_knock(&self) {
        self.knocks.set(self.knocks.get().wrapping_add(1));
    }

    /// Watches a listener.
    pub(crate) fn watch_listener(&self, listener: &TcpListener) -> io::Result<()> {
        self.register(listener.as_raw_fd(), DOOR, Interest::READABLE)
    }

    /// Watches a stream to one of the ends.
    pub(crate) fn watch_outward(&self, stream: &TcpStream) -> io::Result<()> {
        self.register(stream.as_raw_fd(), STREAM, Interest::WRITABLE)
    }

    /// Watches a stream from somebody who is not known.
    pub(crate) fn watch_inward(&self, stream: &TcpStream) -> io::Result<()> {
        self.register(stream.as_raw_fd(), QUIET, Interest::READABLE)
    }

    /// Lets a stream wake waits that is known to come from one of the ends. Where the system refuses it, what
    /// comes over this stream is read a turn later.
    pub(crate) fn let_wake(&self, stream: &TcpStream) {
        let fd = stream.as_raw_fd();
        let _ = self
            .registry
            .reregister(&mut SourceFd(&fd), STREAM, Interest::READABLE);
    }

    /// Watches a socket for datagrams, at which these ends are heard.
    pub(crate) fn watch_datagrams(
        &self,
        socket: &Rc<UdpSocket>,
        all: &Rc<Vec<Address>>,
    ) -> Result<(), Refused> {
        let token = self.place(Mailbox::new(socket, all)?)?;
        self.register(socket.as_raw_fd(), token, Interest::READABLE)?;
        Ok(())
    }

    /// Watches a socket under a name.
    fn register(&self, fd: RawFd, token: Token, interest: Interest) -> io::Result<()> {
        self.registry.register(&mut SourceFd(&fd), token, interest)
    }

    /// Gives a socket for datagrams a name, that of a closed one where there is one.
    fn place(&self, mailbox: Mailbox) -> Result<Token, Refused> {
        let Ok(mut guard) = self.mailboxes.try_borrow_mut() else {
            return Err(Refused::System);
        };
        let mailboxes = &mut *guard;
        match mailboxes.iter().position(|it| it.is_closed()) {
            Some(i) => {
                mailboxes[i] = mailbox;
                Ok(token_of(i))
            }
            None => {
                mailboxes.push(mailbox)?;
                Ok(token_of(mailboxes.len() - 1))
            }
        }
    }

    /// Whether the socket of this name wakes a wait.
    pub(crate) fn wakes(&self, token: Token) -> bool {
        match token.0.checked_sub(FIRST_MAILBOX) {
            Some(i) => self.has_mail(i),
            None => token == STREAM,
        }
    }

    /// Whether the socket for datagrams at this place has one of an end.
    fn has_mail(&self, i: usize) -> bool {
        match self.mailboxes.try_borrow() {
            Ok(mailboxes) => match mailboxes.get(i) {
                Some(mailbox) => mailbox.has_mail(),
                None => false,
            },
            Err(_) => true,
        }
    }
}

/// The name of the socket for datagrams at this place.
fn token_of(i: usize) -> Token {
    Token(FIRST_MAILBOX.saturating_add(i))
}
