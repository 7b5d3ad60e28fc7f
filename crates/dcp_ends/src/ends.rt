//! An end of the protocol: a machine that events come to, and that has messages to send after each.

ghost use Rattle.std.specs.Prelude.{◌≡◌, ◌<◌, ◌≤◌, ◌^◌, ◌++◌, ◌∷◌, [], length, slice_get, option_map, IfSome};
ghost use Rattle.dcp_ends.specs.Events.{Gram, Tick};

use dcp_types::Address;

/// A master or a slave. It takes one event at a time, by `on_gram` or `on_turn`; then what it has to
/// send is read by `outgoing` from 0 on and given up by `clear_outgoing`, and the next event may come.
///
/// Contracts see the lists of events that it stands for, the rules that it follows over such lists, and
/// what is outgoing.
pub trait End: Drop {
    ghost use Rattle.std.specs.Prelude.{List};
    ghost use Rattle.dcp_ends.specs.Events.{Event, Send, Rules};

    /// What an end is made from, as a type.
    ghost Made: { Type 0 };

    /// What it was made from. No call changes it.
    ghost made: { Self → Made };

    /// The events of which the end is in the middle of its life.
    ghost stands: { Self → List Event → Type 0 };

    /// What it is made to do. No call changes it.
    ghost rules: { Self → Rules };

    /// What is to be sent now, in order.
    ghost outs: { Self → List Send };

    /// Where the end is found.
    fn address(&self) -> Address
        ensures { result ≡ (rules self.now).place };

    /// A datagram has come. Nothing is outgoing.
    fn on_gram(&mut self, from: Address, bytes: &[u8])
        requires { outs self.old ≡ [] }
        ensures stands { (events : List Event) → stands self.old events → stands self.new (events ++ Gram from bytes.now ∷ []) }
        ensures sends { (events : List Event) → stands self.old events → outs self.new ≡ (rules self.old).sends events (Gram from bytes.now) }
        ensures rules { rules self.new ≡ rules self.old }
        ensures made { made self.new ≡ made self.old };

    /// The end has a turn. Nothing is outgoing.
    fn on_turn(&mut self)
        requires { outs self.old ≡ [] }
        ensures stands { (events : List Event) → stands self.old events → stands self.new (events ++ Tick ∷ []) }
        ensures sends { (events : List Event) → stands self.old events → outs self.new ≡ (rules self.old).sends events Tick }
        ensures rules { rules self.new ≡ rules self.old }
        ensures made { made self.new ≡ made self.old };

    /// The message with this number, from 0, of those that are to be sent: to whom, and 1 to 1,024
    /// bytes. None past the last.
    fn outgoing(&self, i: usize) -> Option<(Address, &[u8])>
        ensures value { option_map (λ out. record { to = out.0; bytes = out.1.now }) result ≡ slice_get (outs self.now) i }
        ensures few { length (outs self.now) < 2 ^ 64 }
        ensures low { IfSome result (λ out. 1 ≤ length out.1.now) }
        ensures high { IfSome result (λ out. length out.1.now ≤ 1024) };

    /// What was to be sent was sent, or is given up.
    fn clear_outgoing(&mut self)
        ensures outs { outs self.new ≡ [] }
        ensures stands { (events : List Event) → stands self.old events → stands self.new events }
        ensures rules { rules self.new ≡ rules self.old }
        ensures made { made self.new ≡ made self.old };

    /// Whether nothing more is to be expected of the end.
    fn is_over(&self) -> bool
        ensures { (events : List Event) → stands self.now events → result ≡ (rules self.now).over events };
}
