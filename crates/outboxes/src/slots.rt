//! A place for one message.

ghost use Rattle.std.specs.Prelude.{◌≡◌};
ghost use Rattle.pdu_layout.specs.Message.{message_of, HasSpelling};
ghost use Rattle.pdu_layout.specs.Reading.{spelling};
ghost use Rattle.outboxes.specs.Sizes.{IsSendSized};
ghost use Rattle.outboxes.specs.Slots.{send_in, IsFilled};

use dcp_types::Address;
use pdu_codec::encode;
use pdu_layout::Pdu;

/// A message and where it goes: its bytes stand at the front.
#[derive(Debug, Drop)]
pub(crate) struct Slot {
    to: Address,
    length: usize,
    bytes: [u8; 1024],
}

impl Slot {
    /// A slot in which no message stands yet.
    pub fn new() -> Slot
        ensures { result.length ≡ 0 }
    {
        Slot {
            to: Address { ip: 0, port: 0 },
            length: 0,
            bytes: [0; 1024],
        }
    }

    /// Writes a message over what was there.
    #[inline(always)]
    pub fn spell(&mut self, to: Address, message: &Pdu<'_>)
        requires { HasSpelling (message_of message.now) }
        ensures send { send_in self.new ≡ record { to = to; bytes = spelling (message_of message.now) } }
        ensures filled { IsFilled self.new }
    {
        self.to = to;
        self.length = encode(message, &mut self.bytes);
    }

    /// Writes the bytes of a message over what was there.
    pub fn copy(&mut self, to: Address, message: &[u8])
        requires { IsSendSized message.now }
        ensures send { send_in self.new ≡ record { to = to; bytes = message.now } }
        ensures filled { IsFilled self.new }
    {
        self.to = to;
        self.length = message.len();
        self.bytes[..self.length].copy_from_slice(message);
    }

    /// To whom the message goes, and its bytes.
    #[inline(always)]
    pub fn message(&self) -> (Address, &[u8])
        requires { IsFilled self.now }
        ensures send { record { to = result.0; bytes = result.1.now } ≡ send_in self.now }
        ensures sized { IsSendSized result.1.now }
    {
        (self.to, &self.bytes[..self.length])
    }
}
