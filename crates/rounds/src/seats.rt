//! How a round calls its ends.

ghost use Rattle.std.specs.Prelude.{◌≡◌, ◌≤◌, ◌<◌, ◌^◌, ℕ, List, [], ◌∷◌, ◌++◌, length, slice_get, IfSome};
ghost use Rattle.std.specs.Option.{option_map};
ghost use Rattle.dcp_ends.specs.Events.{Event, Gram, Tick, Send, Rules};

use dcp_types::Address;

/// An end as a round calls it, whichever way it is held: directly, or as a task with an inbox. It is given
/// datagrams of at most 1,025 bytes, and else promises what an end promises.
pub trait Seat: Drop {
    /// What an end is made from, as a type.
    ghost Made: { Type 0 };

    /// What the end in it was made from. No call changes it.
    ghost made: { Self → Made };

    /// It stands for this list of events.
    ghost stands: { Self → List Event → Type 0 };

    /// What it is made to do, which no call changes.
    ghost rules: { Self → Rules };

    /// What is outgoing now.
    ghost outs: { Self → List Send };

    /// Where the end is found.
    fn address(&self) -> Address
        ensures { result ≡ (rules self.now).place };

    /// A datagram has come. Nothing is outgoing.
    fn on_gram(&mut self, from: Address, bytes: &[u8])
        requires quiet { outs self.old ≡ [] }
        requires fits { length bytes.now ≤ 1025 }
        ensures stands { (events : List Event) → stands self.old events → stands self.new (events ++ Gram from bytes.now ∷ []) }
        ensures sends { (events : List Event) → stands self.old events → outs self.new ≡ (rules self.old).sends events (Gram from bytes.now) }
        ensures rules { rules self.new ≡ rules self.old }
        ensures made { made self.new ≡ made self.old };

    /// The end has a turn. Nothing is outgoing.
    fn on_turn(&mut self)
        requires { outs self.old ≡ [] }
        ensures stands { (events : List Event) → stands self.old events → stands self.new (events ++ Tick ∷ []) }
        ensures sends { (events : List Event) → stands self.old events → outs self.new ≡ (rules self.old).sends events Tick }
        ensures rules { rules self.new ≡ rules self.old }
        ensures made { made self.new ≡ made self.old };

    /// The message with this number, from 0, of those that are to be sent. None past the last.
    fn outgoing(&self, i: usize) -> Option<(Address, &[u8])>
        ensures value { option_map (λ out. record { to = out.0; bytes = out.1.now }) result ≡ slice_get (outs self.now) i }
        ensures few { length (outs self.now) < 2 ^ 64 }
        ensures low { IfSome result (λ out. 1 ≤ length out.1.now) }
        ensures high { IfSome result (λ out. length out.1.now ≤ 1024) };

    /// What was to be sent was sent, or is given up.
    fn clear_outgoing(&mut self)
        ensures outs { outs self.new ≡ [] }
        ensures stands { (events : List Event) → stands self.old events → stands self.new events }
        ensures rules { rules self.new ≡ rules self.old }
        ensures made { made self.new ≡ made self.old };

    /// Whether nothing more is to be expected of the end.
    fn is_over(&self) -> bool
        ensures { (events : List Event) → stands self.now events → result ≡ (rules self.now).over events };
}
