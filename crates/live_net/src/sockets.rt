//! Sockets that a wait watches, each with the address that it was asked for.

ghost use Rattle.std.specs.Prelude.{◌≡◌, ◌≤◌, List, None, Option, length, IfOk, IfSome};
ghost use Rattle.live_net.specs.Datagrams.{Datagram, sent_more};

use crate::refusals::Refused;
use crate::watches::Watch;
use dcp_types::Address;
use mio::net::{TcpListener, TcpStream, UdpSocket};
use std::alloc::Global;
use std::io;
use std::net::{Net, SocketAddr};
use std::rc::Rc;

/// A socket, and the address that it was asked for: its own, or for a stream its peer's.
#[derive(Drop)]
pub(crate) struct Bound<T> {
    pub(crate) socket: T,
    pub(crate) at: SocketAddr,
}

/// A socket for datagrams at this address.
pub(crate) fn datagrams_at<H: Net>(net: &H, at: SocketAddr) -> io::Result<Bound<UdpSocket>>
    ensures { IfOk result (λ bound. bound.at ≡ at) }
{
    let socket = UdpSocket::bind(net, at)?;
    Ok(Bound { socket, at })
}

/// The socket for datagrams, which the wait sees too, and at which these ends are heard.
pub(crate) fn shared(
    watch: &Watch,
    alloc: Global,
    all: &Rc<Vec<Address>>,
    bound: Bound<UdpSocket>,
) -> Result<Bound<Rc<UdpSocket>>, Refused>
    ensures { IfOk result (λ shared. shared.at ≡ bound.at) }
{
    let socket = Rc::new(alloc, bound.socket)?;
    watch.watch_datagrams(&socket, all)?;
    Ok(Bound {
        socket,
        at: bound.at,
    })
}

/// A listener at this address.
pub(crate) fn listener_at<H: Net>(
    net: &H,
    watch: &Watch,
    at: SocketAddr,
) -> io::Result<Bound<TcpListener>>
    ensures { IfOk result (λ bound. bound.at ≡ at) }
{
    let socket = TcpListener::bind(net, at)?;
    watch.watch_listener(&socket)?;
    Ok(Bound { socket, at })
}

/// A stream to this address, whose connection has begun.
pub(crate) fn stream_to<H: Net>(
    net: &H,
    watch: &Watch,
    at: SocketAddr,
) -> io::Result<Bound<TcpStream>>
    ensures { IfOk result (λ bound. bound.at ≡ at) }
{
    let socket = TcpStream::connect(net, at)?;
    socket.set_nodelay(true)?;
    watch.watch_outward(&socket)?;
    Ok(Bound { socket, at })
}

/// The stream that was let in, where the system watches it.
pub(crate) fn watched(watch: &Watch, stream: TcpStream) -> Option<TcpStream>
    ensures { IfSome result (λ s. s ≡ stream) }
{
    watch.watch_inward(&stream).ok()?;
    Some(stream)
}

/// A socket for datagrams. Where it tells them, `sent` are the datagrams that it was given to send. What
/// the system does with one is not known, so that a socket of the system tells none.
pub(crate) trait Datagrams {
    ghost sent: { Self → Option (List Datagram) };

    fn send_to(&mut self, bytes: &[u8], to: SocketAddr) -> io::Result<usize>
        ensures { sent self.new ≡ sent_more (sent self.old) to bytes.now };

    /// The number of bytes that stand at the front of the room, and their sender.
    fn recv_from(&mut self, room: &mut [u8]) -> io::Result<(usize, SocketAddr)>
        ensures len { IfOk result (λ gram. gram.0 ≤ length room.new) }
        ensures sent { sent self.new ≡ sent self.old };
}

impl Datagrams for Bound<Rc<UdpSocket>> {
    ghost sent = { λ s. None };

    fn send_to(&mut self, bytes: &[u8], to: SocketAddr) -> io::Result<usize> {
        self.socket.send_to(bytes, to)
    }

    fn recv_from(&mut self, room: &mut [u8]) -> io::Result<(usize, SocketAddr)> {
        self.socket.recv_from(room)
    }
}

impl io::Write for Bound<TcpStream> {
    fn write(&mut self, piece: &[u8]) -> io::Result<usize> {
        self.socket.write(piece)
    }

    fn flush(&mut self) -> io::Result<()> {
        self.socket.flush()
    }
}
