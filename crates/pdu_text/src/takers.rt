//! Who takes a message that was read.

ghost use Rattle.std.specs.Prelude.{ℕ, List, Option};
ghost use Rattle.pdu_layout.specs.Message.{message_of, Spells, HasSpelling};
ghost use Rattle.pdu_text.specs.Takers.{Adds};

use pdu_layout::Pdu;

/// Takes a message that was read from a text. The message borrows its payload from the reader, so a
/// taker copies what it keeps.
pub trait PduTaker {
    // the bytes of the messages that were handed over, the oldest first, where a taker tells them
    ghost taken: { Self → Option (List (List ℕ)) };

    // whether there is room for one more message
    ghost can_take: { Self → Type 0 } = { λ _. Unit {0} };

    /// Takes the message. There is room for it, each of its fields fits, and it has 1,024 bytes at
    /// most.
    fn take(&mut self, pdu: &Pdu<'_>)
        requires ready { can_take self.old }
        requires fits { HasSpelling (message_of pdu.now) }
        ensures { (bytes : List ℕ) → Spells (message_of pdu.now) bytes → Adds (taken self.old) (taken self.new) bytes };
}
