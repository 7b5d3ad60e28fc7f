//! One end in a round: what it sends, a look for its datagrams, and its turn.

ghost use Rattle.std.specs.Prelude.{◌≡◌, ◌≤◌, [], ◌∷◌, All, length, take, IsTrue, OnOk, OnErr, IfOk, List, ℕ, ◌<◌, ◌^◌};
ghost use Rattle.dcp_ends.specs.Events.{Event};
ghost use Rattle.dcp_ends.specs.declared.entries.LogEntry.TheVariants.{Sent, Got, Idle, Turn};
ghost use Rattle.dcp_ends.specs.Logs.{IsInRange, sent_by};
ghost use Rattle.rounds.specs.declared.one_end.HostFault.TheVariants.{OutOfMemory};
ghost use Rattle.rounds.specs.Steps.{Added, SendsSome, Caused, TookGram, LookForm, AddsPart};
ghost use Rattle.rounds.specs.Rounds.{IsGotPart, IsLook, IsLookPart, IsTurn, IsTurnPart};
ghost use Rattle.rounds.specs.Told.{IsTold, IsToldUpTo};

use crate::rooms::Room;
use crate::seats::Seat;
use dcp_net::{Done, Net, Taken};
use dcp_record::RunLog;
use dcp_types::Address;
use std::alloc::AllocError;

/// The most datagrams that an end takes in one round.
const MOST: u8 = 64;

/// Why a round was not finished.
#[derive(Clone, Copy, Debug, PartialEq, Eq)]
pub enum HostFault {
    /// A call of the network failed, and its count of faults rose to this.
    Net { count: u64 },
    OutOfMemory,
}

impl From<AllocError> for HostFault {
    ghost from_gives = { λ _ e. e ≡ OutOfMemory };

    fn from(_e: AllocError) -> HostFault {
        HostFault::OutOfMemory
    }
}

/// Sends one message of 1 to 1,024 bytes, and writes it into the log. Room for its entry is there before
/// the call, so a refusal leaves the log as it was.
fn send_one<N: Net>(
    net: &mut N,
    log: &mut RunLog,
    from: Address,
    to: Address,
    bytes: &[u8],
) -> Result<(), HostFault>
    requires is_open { IsTrue (N.is_open net.old) }
    requires low { 1 ≤ length bytes.now }
    requires high { length bytes.now ≤ 1024 }
    ensures is_open { IsTrue (N.is_open net.new) }
    ensures opening { N.opening net.new ≡ N.opening net.old }
    ensures ok { OnOk result (Added N.calls net.old net.new log.old.entries log.new.entries (Sent from to bytes.now ∷ [])) }
    ensures err { OnErr result (Added N.calls net.old net.new log.old.entries log.new.entries []) }
    ensures cause { Caused (N.count net.old) (N.count net.new) result }
    ensures range { All IsInRange log.old.entries → All IsInRange log.new.entries }
{
    log.make_room()?;
    match net.send(from, to, bytes) {
        Done::Ok => {
            log.push_sent(from, to, bytes);
            Ok(())
        }
        Done::Failed => Err(HostFault::Net {
            count: net.faults(),
        }),
        Done::OutOfMemory => Err(HostFault::OutOfMemory),
    }
}

/// Sends what is outgoing, in order. After a refusal some first ones of them went out.
fn send_outgoing<E: Seat, N: Net>(end: &E, net: &mut N, log: &mut RunLog) -> Result<(), HostFault>
    requires { IsTrue (N.is_open net.old) }
    ensures is_open { IsTrue (N.is_open net.new) }
    ensures opening { N.opening net.new ≡ N.opening net.old }
    ensures ok { OnOk result (Added N.calls net.old net.new log.old.entries log.new.entries (sent_by (E.rules end.now).place (E.outs end.now))) }
    ensures err { OnErr result (SendsSome N.calls (E.rules end.now).place (E.outs end.now) net.old net.new log.old.entries log.new.entries) }
    ensures cause { Caused (N.count net.old) (N.count net.new) result }
    ensures range { All IsInRange log.old.entries → All IsInRange log.new.entries }
{
    let place = end.address();
    let mut i = 0;
    'sends: while let Some((to, bytes)) = end.outgoing(i) {
        send_one(net, log, place, to, bytes)?;
        i += 1;
    }
    Ok(())
}

/// Sends what an event made outgoing, and clears it.
fn answer<E: Seat, N: Net>(end: &mut E, net: &mut N, log: &mut RunLog) -> Result<(), HostFault>
    requires { IsTrue (N.is_open net.old) }
    ensures is_open { IsTrue (N.is_open net.new) }
    ensures opening { N.opening net.new ≡ N.opening net.old }
    ensures ok { OnOk result (Added N.calls net.old net.new log.old.entries log.new.entries (sent_by (E.rules end.old).place (E.outs end.old))) }
    ensures err { OnErr result (SendsSome N.calls (E.rules end.old).place (E.outs end.old) net.old net.new log.old.entries log.new.entries) }
    ensures quiet { OnOk result (E.outs end.new ≡ []) }
    ensures stands { (events : List Event) → E.stands end.old events → E.stands end.new events }
    ensures rules { E.rules end.new ≡ E.rules end.old }
    ensures made { E.made end.new ≡ E.made end.old }
    ensures cause { Caused (N.count net.old) (N.count net.new) result }
    ensures range { All IsInRange log.old.entries → All IsInRange log.new.entries }
{
    send_outgoing(end, net, log)?;
    end.clear_outgoing();
    Ok(())
}

/// A datagram that stands at the front of the room: its sender and its length in bytes.
#[derive(Clone, Copy)]
struct Gram {
    from: Address,
    len: usize,
}

/// Takes once for an end, and writes into the log what came, if anything.
fn take_gram<N: Net>(
    net: &mut N,
    log: &mut RunLog,
    at: Address,
    room: &mut Room,
) -> Result<Option<Gram>, HostFault>
    requires { IsTrue (N.is_open net.old) }
    ensures is_open { IsTrue (N.is_open net.new) }
    ensures opening { N.opening net.new ≡ N.opening net.old }
    ensures ok { IfOk result (λ gram. TookGram N.calls at gram room.new.bytes net.old net.new log.old.entries log.new.entries) }
    ensures err { OnErr result (Added N.calls net.old net.new log.old.entries log.new.entries []) }
    ensures cause { Caused (N.count net.old) (N.count net.new) result }
    ensures range { All IsInRange log.old.entries → All IsInRange log.new.entries }
{
    log.make_room()?;
    match net.take(at, &mut room.bytes) {
        Taken::Nothing => {
            log.push_idle(at);
            Ok(None)
        }
        Taken::Gram { from, len } => {
            log.push_got(at, from, &room.bytes[..len]);
            Ok(Some(Gram { from, len }))
        }
        Taken::Failed => Err(HostFault::Net {
            count: net.faults(),
        }),
        Taken::OutOfMemory => Err(HostFault::OutOfMemory),
    }
}

/// Takes once for an end. Where a datagram came, the end has it, and its sends went out; the answer says
/// whether one came.
fn look_once<E: Seat, N: Net>(
    end: &mut E,
    net: &mut N,
    log: &mut RunLog,
    room: &mut Room,
) -> Result<bool, HostFault>
    requires is_open { IsTrue (N.is_open net.old) }
    requires quiet { E.outs end.old ≡ [] }
    requires told { IsTold E.stands (E.rules end.old) end.old log.old.entries }
    ensures is_open { IsTrue (N.is_open net.new) }
    ensures opening { N.opening net.new ≡ N.opening net.old }
    ensures rules { E.rules end.new ≡ E.rules end.old }
    ensures made { E.made end.new ≡ E.made end.old }
    ensures quiet { OnOk result (E.outs end.new ≡ []) }
    ensures told { OnOk result (IsTold E.stands (E.rules end.old) end.new log.new.entries) }
    ensures cut { OnErr result (IsToldUpTo E.stands (E.rules end.old) end.new log.new.entries) }
    ensures ok { IfOk result (λ more. AddsPart N.calls (LookForm (E.rules end.old).place more) net.old net.new log.old.entries log.new.entries) }
    ensures err { OnErr result (AddsPart N.calls (IsGotPart (E.rules end.old).place) net.old net.new log.old.entries log.new.entries) }
    ensures cause { Caused (N.count net.old) (N.count net.new) result }
    ensures range { All IsInRange log.old.entries → All IsInRange log.new.entries }
{
    let Some(gram) = take_gram(net, log, end.address(), room)? else {
        return Ok(false);
    };
    end.on_gram(gram.from, &room.bytes[..gram.len]);
    answer(end, net, log)?;
    Ok(true)
}

/// Takes for an end until nothing comes, at most 64 datagrams, and gives it each.
pub fn look<E: Seat, N: Net>(
    end: &mut E,
    net: &mut N,
    log: &mut RunLog,
    room: &mut Room,
) -> Result<(), HostFault>
    requires is_open { IsTrue (N.is_open net.old) }
    requires quiet { E.outs end.old ≡ [] }
    requires told { IsTold E.stands (E.rules end.old) end.old log.old.entries }
    ensures is_open { IsTrue (N.is_open net.new) }
    ensures opening { N.opening net.new ≡ N.opening net.old }
    ensures rules { E.rules end.new ≡ E.rules end.old }
    ensures made { E.made end.new ≡ E.made end.old }
    ensures quiet { OnOk result (E.outs end.new ≡ []) }
    ensures told { OnOk result (IsTold E.stands (E.rules end.old) end.new log.new.entries) }
    ensures cut { OnErr result (IsToldUpTo E.stands (E.rules end.old) end.new log.new.entries) }
    ensures ok { OnOk result (AddsPart N.calls (IsLook (E.rules end.old).place) net.old net.new log.old.entries log.new.entries) }
    ensures err { OnErr result (AddsPart N.calls (IsLookPart (E.rules end.old).place) net.old net.new log.old.entries log.new.entries) }
    ensures cause { Caused (N.count net.old) (N.count net.new) result }
    ensures range { All IsInRange log.old.entries → All IsInRange log.new.entries }
{
    'looks: for _got in 0..MOST {
        let more = look_once(end, net, log, room)?;
        if !more {
            return Ok(());
        }
    }
    Ok(())
}

/// Gives an end its turn, and sends what it makes it send.
pub fn turn<E: Seat, N: Net>(end: &mut E, net: &mut N, log: &mut RunLog) -> Result<(), HostFault>
    requires is_open { IsTrue (N.is_open net.old) }
    requires quiet { E.outs end.old ≡ [] }
    requires told { IsTold E.stands (E.rules end.old) end.old log.old.entries }
    ensures is_open { IsTrue (N.is_open net.new) }
    ensures opening { N.opening net.new ≡ N.opening net.old }
    ensures rules { E.rules end.new ≡ E.rules end.old }
    ensures made { E.made end.new ≡ E.made end.old }
    ensures quiet { OnOk result (E.outs end.new ≡ []) }
    ensures told { OnOk result (IsTold E.stands (E.rules end.old) end.new log.new.entries) }
    ensures cut { OnErr result (IsToldUpTo E.stands (E.rules end.old) end.new log.new.entries) }
    ensures ok { OnOk result (AddsPart N.calls (IsTurn (E.rules end.old).place) net.old net.new log.old.entries log.new.entries) }
    ensures err { OnErr result (AddsPart N.calls (IsTurnPart (E.rules end.old).place) net.old net.new log.old.entries log.new.entries) }
    ensures cause { Caused (N.count net.old) (N.count net.new) result }
    ensures range { All IsInRange log.old.entries → All IsInRange log.new.entries }
{
    log.make_room()?;
    log.push_turn(end.address());
    end.on_turn();
    answer(end, net, log)?;
    Ok(())
}
