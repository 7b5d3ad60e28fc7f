//! What comes to one end over TCP.

ghost use Rattle.std.specs.Prelude.{◌≡◌, ◌<◌, ◌≤◌, ◌++◌, ◌∷◌, [], ⊤, None, Some, false, map, length, not, position, take, vec_len, IfOk, IfErr, IfSome, IsTrue, MatchOption};
ghost use Rattle.std.specs.declared.net.socket_addr.SocketAddr.{SocketAddr};
ghost use Rattle.dcp_net.specs.Nets.{IsWithinRoom};
ghost use Rattle.live_net.specs.Addresses.{address_in};
ghost use Rattle.live_net.specs.Connections.{HandedOut, Visits, gives_way, inlet_of, is_crowded, turn_of, with_room};
ghost use Rattle.live_net.specs.Doors.{LetsIn, Given, MeansKnock};
ghost use Rattle.live_net.specs.Strangers.{ComesFrom, is_end_of};
ghost use Rattle.live_net.specs.declared.connections.Connection.{Connection};

use crate::addresses::socket_of;
use crate::connections::{Connection, Heard};
use crate::failures::is_own;
use crate::refusals::Refused;
use crate::sockets::{Bound, listener_at, watched};
use crate::watches::Watch;
use dcp_net::Taken;
use dcp_types::{Address, OutOfMemory};
use mio::net::{TcpListener, TcpStream};
use std::alloc::Global;
use std::io;
use std::io::ErrorKind;
use std::net::{Net, SocketAddr};

/// The most connections to one end that are kept.
pub const MOST_INWARD: usize = 32;

/// The most connections that one take lets in.
const MOST_LET_IN: u32 = 32;

/// Who waits at the listener.
#[derive(Drop)]
enum Knock {
    Came(TcpStream),
    Nobody,
    /// Somebody who has gone, or who cannot be let in now.
    Lost,
    /// The listener itself failed.
    Failed,
}

/// What became of the question who waits at the listener.
#[derive(Clone, Copy, PartialEq, Eq)]
enum Door {
    /// A connection was let in, or closed where it cannot be watched.
    Passed,
    Nobody,
    /// The listener itself failed.
    Failed,
    OutOfMemory,
}

/// The connections to one end, in the order in which they came, and whose turn it is.
#[derive(Drop)]
pub(crate) struct Arrivals {
    listener: Bound<TcpListener>,
    connections: Vec<Connection>,
    next: usize,
    /// How many knocks waits had told of when nobody waited at the listener.
    answered: u64,
    ghost few: { vec_len connections ≤ 32 },
}

impl Arrivals {
    /// A listener at this address, which is watched.
    pub(crate) fn open<H: Net>(
        net: &H,
        watch: &Watch,
        alloc: Global,
        place: Address,
    ) -> Result<Arrivals, Refused>
        ensures refused { IfErr result (λ refused. refused ≡ Refused.System) }
        ensures bound { IfOk result (λ made. address_in made.listener.at ≡ Some place) }
        ensures fresh { IfOk result (λ made. made.connections.items ≡ []) }
    {
        let listener = listener_at(net, watch, socket_of(place))?;
        Ok(Arrivals {
            listener,
            connections: Vec::new(alloc),
            next: 0,
            answered: watch.knocks(),
        })
    }

    /// Takes the next message, each connection in its turn. Before it asks them it lets one in, and again
    /// as long as one came and none has a message.
    pub(crate) fn take(
        &mut self,
        watch: &Watch,
        alloc: Global,
        all: &[Address],
        room: &mut [u8; 1025],
    ) -> Taken
        ensures len { IsWithinRoom result }
        ensures known { ComesFrom all.now result }
        ensures handed { Given result (map inlet_of self.new.connections.items) room.new }
    {
        for _ in 0..MOST_LET_IN {
            let door = self.open_door(watch, alloc);
            match door {
                Door::Passed | Door::Nobody => {}
                Door::Failed => return Taken::Failed,
                Door::OutOfMemory => return Taken::OutOfMemory,
            }
            if let Some((from, len)) = self.ask_all(watch, all, room) {
                return Taken::Gram { from, len };
            }
            if door == Door::Nobody {
                break;
            }
        }
        Taken::Nothing
    }

    /// Lets in who waits at the listener, if there is one. It is asked only where a wait has told of a knock
    /// since nobody waited there.
    fn open_door(&mut self, watch: &Watch, alloc: Global) -> Door {
        let knocks = watch.knocks();
        if self.answered == knocks {
            return Door::Nobody;
        }
        match knock_of(self.listener.socket.accept()) {
            Knock::Came(stream) => self.admit(alloc, watched(watch, stream)),
            Knock::Nobody => {
                self.answered = knocks;
                Door::Nobody
            }
            Knock::Lost => Door::Nobody,
            Knock::Failed => Door::Failed,
        }
    }

    /// Asks each connection once at most, until one has a message.
    fn ask_all(
        &mut self,
        watch: &Watch,
        all: &[Address],
        room: &mut [u8; 1025],
    ) -> Option<(Address, usize)>
        ensures len { IfSome result (λ gram. gram.1 ≤ 1025) }
        ensures known { IfSome result (λ gram. IsTrue (is_end_of all.now gram.0)) }
        ensures handed { IfSome result (λ gram. HandedOut (map inlet_of self.new.connections.items) gram.0 (take gram.1 room.new)) }
    {
        for _ in 0..self.connections.len() {
            if let Some(gram) = self.visit(watch, all, room) {
                return Some(gram);
            }
        }
        None
    }

    /// Keeps a connection that the system watches. One that it does not watch is closed.
    fn admit(&mut self, alloc: Global, watched: Option<TcpStream>) -> Door
        ensures { LetsIn self.old.connections.items self.new.connections.items watched result }
    {
        match watched {
            None => Door::Passed,
            Some(stream) => match self.let_in(alloc, stream) {
                Ok(()) => Door::Passed,
                Err(OutOfMemory) => Door::OutOfMemory,
            },
        }
    }

    /// Lets a connection in, for which another gives way where there are too many.
    fn let_in(&mut self, alloc: Global, stream: TcpStream) -> Result<(), OutOfMemory>
        ensures { IfOk result (λ _. (came : Connection) × (came.intake.source.inner ≡ stream) × (came.is_known ≡ false)
            × (self.new.connections.items ≡ with_room self.old.connections.items ++ came ∷ [])) }
    {
        let came = Connection::new(alloc, stream)?;
        self.make_room();
        self.connections.push(came)?;
        Ok(())
    }

    /// Closes the connection that gives way, where as many are kept as may be.
    fn make_room(&mut self)
        ensures connections { self.new.connections.items ≡ with_room self.old.connections.items }
        ensures room { vec_len self.new.connections < 32 }
    {
        if self.is_full() {
            let first = self.gives_way();
            drop(self.connections.remove(first));
        }
    }

    /// Whether as many connections are kept as may be.
    fn is_full(&self) -> bool
        ensures { result ≡ is_crowded self.now.connections.items }
    {
        self.connections.len() == MOST_INWARD
    }

    /// Which connection gives way to another: the oldest of those that brought no message from one of the
    /// ends, and where there is none, the oldest.
    fn gives_way(&self) -> usize
        requires { 0 < vec_len self.now.connections }
        ensures place { result ≡ gives_way self.now.connections.items }
        ensures within { result < vec_len self.now.connections }
    {
        match self.oldest_unknown() {
            Some(i) => i,
            None => 0,
        }
    }

    /// The oldest of the connections that brought no message from one of the ends.
    fn oldest_unknown(&self) -> Option<usize>
        ensures place { result ≡ position (λ c. not c.is_known) self.now.connections.items }
        ensures within { IfSome result (λ i. i < vec_len self.now.connections) }
    {
        self.connections
            .iter()
            .position(|connection| connection.is_unknown())
    }

    /// Whose turn it is.
    fn turn(&self) -> usize
        ensures turn { result ≡ turn_of (vec_len self.now.connections) self.now.next }
        ensures within { 0 < vec_len self.now.connections → result < vec_len self.now.connections }
    {
        if self.next < self.connections.len() {
            self.next
        } else {
            0
        }
    }

    /// Asks the connection whose turn it is for a message. One that is over is closed.
    fn visit(
        &mut self,
        watch: &Watch,
        all: &[Address],
        room: &mut [u8; 1025],
    ) -> Option<(Address, usize)>
        ensures none { vec_len self.old.connections ≡ 0 → (result ≡ None) × (self.new ≡ self.old) }
        ensures visits { 0 < vec_len self.old.connections
            → Visits (turn_of (vec_len self.old.connections) self.old.next) all.now self.old.connections.items self.new.connections.items result room.new }
        ensures len { IfSome result (λ gram. gram.1 ≤ 1025) }
        ensures known { IfSome result (λ gram. IsTrue (is_end_of all.now gram.0)) }
        ensures handed { IfSome result (λ gram. HandedOut (map inlet_of self.new.connections.items) gram.0 (take gram.1 room.new)) }
    {
        if self.connections.is_empty() {
            return None;
        }
        let turn = self.turn();
        let connection = &mut self.connections[turn];
        match connection.hear(watch, all) {
            Heard::Gram { from } => {
                let len = put_front(room, connection.message());
                self.next = turn + 1;
                Some((from, len))
            }
            Heard::Later => {
                self.next = turn + 1;
                None
            }
            Heard::Over => {
                drop(self.connections.remove(turn));
                self.next = turn;
                None
            }
        }
    }
}

/// Who waits at the listener by the system's answer.
fn knock_of(answer: io::Result<(TcpStream, SocketAddr)>) -> Knock
    ensures { MeansKnock result answer }
{
    match answer {
        Ok((stream, _)) => Knock::Came(stream),
        Err(error) => {
            if is_own(&error) {
                return Knock::Failed;
            }
            match error.kind() {
                ErrorKind::WouldBlock => Knock::Nobody,
                _ => Knock::Lost,
            }
        }
    }
}

/// Puts a message to the front of the room, and gives its length.
fn put_front(room: &mut [u8; 1025], bytes: &[u8]) -> usize
    requires { length bytes.now ≤ 1025 }
    ensures len { result ≡ length bytes.now }
    ensures front { take result room.new ≡ bytes.now }
{
    room[..bytes.len()].copy_from_slice(bytes);
    bytes.len()
}
