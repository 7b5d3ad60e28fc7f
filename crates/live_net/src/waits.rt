//! The wait for something to take from sockets.

ghost use Rattle.std.specs.Prelude.{◌≡◌, ◌≤◌, IfOk};
ghost use Rattle.std.specs.Duration.{as_nanos};
ghost use Rattle.dcp_io.specs.Faults.{one_more};
ghost use Rattle.dcp_net.specs.Nets.{HasCause};
ghost use Rattle.dcp_net.specs.Waits.{TellsWaits};
ghost use Rattle.live_net.specs.Waits.{told_waits, longest_nanos};

use crate::answers::waited_of;
use crate::refusals::Refused;
use crate::wakes::DOOR;
use crate::watches::Watch;
use dcp_net::{Ready, Waited};
use mio::{Events, Poll};
use std::alloc::{AllocError, Global};
use std::marker::Model;
use std::net::Net;
use std::rc::Rc;
use std::rt::Clock;
use std::time::{Duration, Instant};
use std::{io, thread};

/// The longest wait, in milliseconds.
const LONGEST_WAIT: u64 = 10;

/// How many events of sockets one look takes. Those that are not taken are there for the next look.
const EVENTS: usize = 64;

/// How often one wait looks at the sockets. Whoever comes after that is seen by the next wait.
const MOST_LOOKS: u32 = 1_024;

/// A wait for the sockets of a network: it ends when one of them has something to take of an end, or after 10
/// milliseconds. Strangers do not end it: their datagrams are dropped, and their connections wait. It tells how
/// many waits have answered Ready, up to the last value of their count.
///
/// Contracts see these waits, and how often one has failed.
#[derive(Drop)]
pub struct MioReady<H: Net + Clock + Clone + Drop> {
    /// The leave to reach the system.
    rt: H,
    watch: Rc<Watch>,
    poll: Poll,
    events: Events,
    waits: u64,
    faults: u64,
}

impl<H: Net + Clock + Clone + Drop> Model for MioReady<H> {
    ghost use Rattle.live_net.specs.Waits.{Waiting};

    ghost Value = { Waiting };

    ghost view = { λ s. record { waits = s.waits; faults = s.faults } };
}

impl<H: Net + Clock + Clone + Drop> MioReady<H> {
    /// A wait that watches no socket. It takes all the memory that it needs.
    ///
    /// System where the system gives no set of sockets to watch, or no second owner of it.
    pub fn new(rt: &H, alloc: Global) -> Result<MioReady<H>, Refused>
        ensures { IfOk result (λ ready. ready ≡ record { waits = 0; faults = 0 }) }
    {
        let rt = rt.clone()?;
        let poll = Poll::new(&rt)?;
        let registry = poll.registry().try_clone()?;
        let watch = Rc::new(alloc, Watch::new(alloc, registry))?;
        let events = Events::with_capacity(alloc, EVENTS)?;
        Ok(MioReady {
            rt,
            watch,
            poll,
            events,
            waits: 0,
            faults: 0,
        })
    }

    /// The sockets that it watches.
    pub(crate) fn watch(&self) -> Result<Rc<Watch>, AllocError> {
        self.watch.clone()
    }

    /// Waits until one of the ends has sent something, or for as long as a wait lasts. Where others come, it
    /// looks again for the time that is left.
    fn watch_sockets(&mut self) -> io::Result<()>
        ensures { self.new ≡ self.old }
    {
        let begin = Instant::now(&self.rt)?;
        let mut left = longest_wait();
        for _ in 0..MOST_LOOKS {
            self.poll.poll(&mut self.events, Some(whole_millis(left)))?;
            if self.is_woken() {
                return Ok(());
            }
            left = longest_wait().saturating_sub(begin.elapsed(&self.rt)?);
            if left.subsec_millis() == 0 {
                break;
            }
        }
        if !left.is_zero() {
            thread::sleep(&self.rt, left);
        }
        Ok(())
    }

    /// Whether one of the sockets with an event wakes the wait. Each knock at a listener is taken note of.
    fn is_woken(&self) -> bool {
        let mut is_woken = false;
        for event in self.events.iter() {
            let token = event.token();
            if token == DOOR {
                self.watch.note_knock();
            } else if !is_woken {
                is_woken = self.watch.wakes(token);
            }
        }
        is_woken
    }
}

impl<H: Net + Clock + Clone + Drop> Ready for MioReady<H> {
    ghost waits = { λ s. told_waits s.waits };

    ghost count = { λ s. s.faults };

    fn wait(&mut self) -> Waited
        ensures waits { TellsWaits (told_waits self.old.waits) (told_waits self.new.waits) result }
        ensures cause { HasCause self.old.faults self.new.faults (result ≡ Waited.Failed) }
        ensures once { result ≡ Waited.Failed → self.new.faults ≡ one_more self.old.faults }
    {
        let waited = waited_of(&self.watch_sockets());
        match waited {
            Waited::Ready => self.waits = self.waits.saturating_add(1),
            Waited::Failed => self.faults = self.faults.saturating_add(1),
        }
        waited
    }
}

/// How long a wait lasts at most.
fn longest_wait() -> Duration
    ensures { as_nanos result ≡ longest_nanos }
{
    Duration::from_millis(LONGEST_WAIT)
}

/// The whole milliseconds of a time below a second.
fn whole_millis(time: Duration) -> Duration
    ensures { as_nanos result ≤ as_nanos time }
{
    Duration::from_millis(u64::from(time.subsec_millis()))
}
