//! An end in its seat.

use dcp_ends::End;
use dcp_types::{Address, OutOfMemory};
use futures::Future;
use futures::task::{Doorbell, Solo};
use rounds::{EndTask, Seat};
use std::alloc::{Alloc, Global};
use std::io;
use std::marker::Model;
use std::random::RandomSource;

/// What a context is made with. Its queue has no other beside it, so its name need not be random.
#[derive(Drop)]
struct Named {
    alloc: Global,
}

impl Alloc for Named {
    type A = Global;

    fn alloc(&self) -> Global {
        self.alloc
    }
}

impl RandomSource for Named {
    fn fill_bytes(&self, buf: &mut [u8]) -> io::Result<()> {
        buf.fill(0);
        Ok(())
    }
}

/// An end that gets its datagrams by polls of its task, each in a context of its own. Contracts see the
/// end.
#[derive(Drop)]
pub(crate) struct Seated<E: End> {
    task: EndTask<E>,
    solo: Solo,
}

impl<E: End> Model for Seated<E> {
    ghost use Rattle.std.specs.Prelude.{◌≡◌, None};

    ghost Value = { E };

    ghost view = { λ seat. seat.task.end };

    ghost invariant = { λ seat. seat.task.mail ≡ None };
}

impl<E: End> Seated<E> {
    ghost use Rattle.std.specs.Prelude.{◌≡◌, IfOk, []};

    /// An end to which nothing has come yet, in its seat.
    pub(crate) fn new(alloc: Global, end: E) -> Result<Seated<E>, OutOfMemory>
        requires { E.stands end [] }
        ensures { IfOk result (λ seat. seat ≡ end) }
    {
        let task = EndTask::new(alloc, end)?;
        let Ok(solo) = Solo::new(&Named { alloc }, Doorbell::spinning()) else {
            return Err(OutOfMemory);
        };
        Ok(Seated { task, solo })
    }

    /// The task of the end.
    pub(crate) fn task(&self) -> &EndTask<E>
        ensures { result.now.end ≡ self.now }
    {
        &self.task
    }

    /// The end in the task.
    pub(crate) fn end(&self) -> &E
        ensures { result.now ≡ self.now }
    {
        self.task.end()
    }
}

impl<E: End> Seat for Seated<E> {
    ghost Made = { E.Made };

    ghost made = { E.made };

    ghost stands = { E.stands };

    ghost rules = { E.rules };

    ghost outs = { E.outs };

    fn address(&self) -> Address {
        self.task.end().address()
    }

    fn on_gram(&mut self, from: Address, bytes: &[u8]) {
        self.task.post(from, bytes);
        let mut cx = self.solo.begin();
        let polled = self.task.poll(&mut cx);
        cx.end(&polled);
    }

    fn on_turn(&mut self) {
        self.task.turn();
    }

    fn outgoing(&self, i: usize) -> Option<(Address, &[u8])> {
        self.task.end().outgoing(i)
    }

    fn clear_outgoing(&mut self) {
        self.task.clear_outgoing();
    }

    fn is_over(&self) -> bool {
        self.task.end().is_over()
    }
}
