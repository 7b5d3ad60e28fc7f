//! An end with an inbox, polled by hand.

ghost use Rattle.std.specs.Prelude.{◌≡◌, ◌≤◌, List, [], ◌∷◌, ◌++◌, Some, None, IfOk, IfSome, IfNone, length};
ghost use Rattle.dcp_ends.specs.Events.{Event, Gram, Tick};
ghost use Rattle.futures.specs.Task.{Covers, Keeps};
ghost use Rattle.futures.specs.Poll.{OnPending};
ghost use Rattle.rounds.specs.Tasks.{PolledTask, is_ready};

use dcp_ends::End;
use dcp_types::Address;
use futures::Future;
use futures::task::{Context, Poll, Source, Waker};
use std::alloc::{AllocError, Global};
use std::marker::Model;

/// The longest datagram that a network gives, and so the size of the inbox.
const LONGEST: usize = 1025;

/// An end with an inbox of one datagram. `post` puts a datagram there and wakes the task; a poll gives it
/// to the end; `turn` gives the end a turn. Nothing else gives the end an event.
///
/// Contracts see the end, the datagram in the inbox, and the source that a pending poll registers with.
#[derive(Drop)]
pub struct EndTask<E: End> {
    end: E,
    has_mail: bool,
    from: Address,
    mail: Vec<u8>,
    source: Source,
    waker: Option<Waker>,
}

impl<E: End> Model for EndTask<E> {
    ghost use Rattle.std.specs.Prelude.{if◌then◌else◌, Some, None, ◌≤◌};
    ghost use Rattle.std.specs.Vec.{vec_capacity};
    ghost use Rattle.rounds.specs.Tasks.{PolledTask};

    ghost Value = { PolledTask E };

    ghost view = { λ t. record {
      end = t.end;
      mail = if t.has_mail then Some (record { from = t.from; bytes = t.mail.items }) else None;
      source = t.source.id;
    } };

    ghost invariant = { λ t. 1025 ≤ vec_capacity t.mail };
}

impl<E: End> EndTask<E> {
    /// A task of an end to which nothing has come yet. Its inbox is empty.
    pub fn new(alloc: Global, end: E) -> Result<EndTask<E>, AllocError>
        requires { E.stands end [] }
        ensures { IfOk result (λ task. (task.end ≡ end) × (task.mail ≡ None)) }
    {
        let mail = Vec::with_capacity(alloc, LONGEST)?;
        Ok(EndTask {
            end,
            has_mail: false,
            from: Address { ip: 0, port: 0 },
            mail,
            source: Source::new(),
            waker: None,
        })
    }

    /// Puts a datagram of at most 1,025 bytes into the empty inbox, and wakes the task.
    pub fn post(&mut self, from: Address, bytes: &[u8])
        requires empty { self.old.mail ≡ None }
        requires fits { length bytes.now ≤ 1025 }
        ensures mail { self.new.mail ≡ Some (record { from = from; bytes = bytes.now }) }
        ensures same { (self.new.end ≡ self.old.end) × (self.new.source ≡ self.old.source) }
    {
        self.mail.clear();
        match self.mail.extend_from_slice(bytes) {
            Ok(()) => {}
            Err(_) => unreachable!(),
        }
        self.from = from;
        self.has_mail = true;
        // A waker wakes its task when it is dropped.
        self.waker = None;
    }

    /// The end of this task.
    pub fn end(&self) -> &E
        ensures { result.now ≡ self.now.end }
    {
        &self.end
    }

    /// Gives the end a turn.
    pub fn turn(&mut self)
        requires { E.outs self.old.end ≡ [] }
        ensures stands { (events : List Event) → E.stands self.old.end events → E.stands self.new.end (events ++ Tick ∷ []) }
        ensures sends { (events : List Event) → E.stands self.old.end events → E.outs self.new.end ≡ (E.rules self.old.end).sends events Tick }
        ensures rules { E.rules self.new.end ≡ E.rules self.old.end }
        ensures made { E.made self.new.end ≡ E.made self.old.end }
        ensures same { (self.new.mail ≡ self.old.mail) × (self.new.source ≡ self.old.source) }
    {
        self.end.on_turn();
    }

    /// What the end had to send was sent, or is given up.
    pub fn clear_outgoing(&mut self)
        ensures outs { E.outs self.new.end ≡ [] }
        ensures stands { (events : List Event) → E.stands self.old.end events → E.stands self.new.end events }
        ensures rules { E.rules self.new.end ≡ E.rules self.old.end }
        ensures made { E.made self.new.end ≡ E.made self.old.end }
        ensures same { (self.new.mail ≡ self.old.mail) × (self.new.source ≡ self.old.source) }
    {
        self.end.clear_outgoing();
    }
}

impl<E: End> Future for EndTask<E> {
    type Output = ();

    ghost can_poll = { λ task. IfSome task.mail (λ _. E.outs task.end ≡ []) };

    ghost needs = { λ task s. s ≡ task.source };

    /// A poll with mail gives it to the end, once. It is ready exactly where the end is over afterwards.
    fn poll(&mut self, cx: &mut Context<'_>) -> Poll<()>
        requires { IfSome self.old.mail (λ _. E.outs self.old.end ≡ []) }
        ensures again { OnPending result (IfSome self.new.mail (λ _. E.outs self.new.end ≡ [])) }
        ensures registered { OnPending result (Covers cx.new (λ s. s ≡ self.new.source)) }
        ensures kept { Keeps cx.old cx.new }
        ensures empty { self.new.mail ≡ None }
        ensures stands { IfSome self.old.mail (λ mail. (events : List Event) → E.stands self.old.end events → E.stands self.new.end (events ++ Gram mail.from mail.bytes ∷ [])) }
        ensures sends { IfSome self.old.mail (λ mail. (events : List Event) → E.stands self.old.end events → E.outs self.new.end ≡ (E.rules self.old.end).sends events (Gram mail.from mail.bytes)) }
        ensures idle { IfNone self.old.mail (self.new.end ≡ self.old.end) }
        ensures rules { E.rules self.new.end ≡ E.rules self.old.end }
        ensures made { E.made self.new.end ≡ E.made self.old.end }
        ensures over { (events : List Event) → E.stands self.new.end events → is_ready result ≡ (E.rules self.new.end).over events }
    {
        if self.has_mail {
            self.has_mail = false;
            self.end.on_gram(self.from, &self.mail);
        }
        if self.end.is_over() {
            return Poll::Ready(());
        }
        cx.register(&self.source, &mut self.waker)
    }
}
