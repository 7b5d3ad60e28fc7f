//! What a datagram is to the conversation with its sender.

ghost use Rattle.std.specs.Prelude.{◌≡◌, ◌≤◌, ◌<◌, ◌^◌, ◌&&◌, ◌==◌, ℕ, List, length, false, [], Option, Some, None, IfSome};
ghost use Rattle.master_spec.specs.declared.setups.Slave.{Slave};
ghost use Rattle.master_spec.specs.Marks.{Mark};
ghost use Rattle.master_spec.specs.News.{Brings, Hints, news_of};
ghost use Rattle.std.specs.Option.{option_map};
ghost use Rattle.master_spec.specs.Conversation.{extended, messages_if};
ghost use Rattle.master_spec.specs.Course.{mark_for};
ghost use Rattle.conversation.specs.Standing.{Stands, HasList, CanSendAfter, due_of};
ghost use Rattle.conversation.specs.Hearing.{IsWith, news_for, answer_taken};

use crate::records::Conversation;
use pdu_codec::read;
use pdu_layout::{Cfg, Pdu};

/// A message comes from the slave that the conversation is with. `size` is the length of all its
/// outputs, `setup` the list of the present task. Where the message brings the outputs that the task
/// needs, they are the answer.
#[inline(always)]
fn take_message<'a>(
    talk: &mut Conversation,
    size: usize,
    setup: &[Cfg],
    message: Pdu<'a>,
) -> Option<&'a [u8]>
    requires { talk.old.is_due ≡ false }
    ensures stands { (marks : List Mark) (slave : Slave) → Stands talk.old marks → HasList marks setup.now → IsWith talk.old slave size → Stands talk.new (extended talk.old.limits (mark_for slave marks (news_for message.entry)) marks) }
    ensures due { (marks : List Mark) (slave : Slave) → Stands talk.old marks → HasList marks setup.now → IsWith talk.old slave size → CanSendAfter talk.old.limits talk.old.id (mark_for slave marks (news_for message.entry)) marks → due_of talk.new ≡ messages_if talk.old.limits talk.old.id (mark_for slave marks (news_for message.entry)) marks }
    ensures taken { (marks : List Mark) (slave : Slave) → Stands talk.old marks → IsWith talk.old slave size → option_map (λ out. out.now) result ≡ answer_taken (mark_for slave marks (news_for message.entry)) marks }
    ensures sized { IfSome result (λ out. length out.now ≡ size) }
    ensures given { (talk.new.id ≡ talk.old.id) × (talk.new.limits ≡ talk.old.limits) }
{
    match message {
        Pdu::Rsp { .. } => {
            talk.on_answer(&message, setup);
            None
        }
        Pdu::StateChanged { sender, .. } => {
            take_hint(talk, sender);
            None
        }
        Pdu::DataIo {
            seq,
            data_id,
            payload,
        } => take_outputs(talk, size, seq, data_id, payload),
        _ => None,
    }
}

#[inline(always)]
fn take_outputs<'a>(
    talk: &mut Conversation,
    size: usize,
    seq: u16,
    data_id: u16,
    payload: &'a [u8],
) -> Option<&'a [u8]>
    ensures stands { (marks : List Mark) (slave : Slave) → Stands talk.old marks → IsWith talk.old slave size → Stands talk.new (extended talk.old.limits (mark_for slave marks (Brings seq data_id payload.now)) marks) }
    ensures quiet { due_of talk.new ≡ due_of talk.old }
    ensures taken { (marks : List Mark) (slave : Slave) → Stands talk.old marks → IsWith talk.old slave size → option_map (λ out. out.now) result ≡ answer_taken (mark_for slave marks (Brings seq data_id payload.now)) marks }
    ensures sized { IfSome result (λ out. length out.now ≡ size) }
    ensures given { (talk.new.id ≡ talk.old.id) × (talk.new.limits ≡ talk.old.limits) }
{
    if !are_all(talk.id, size, data_id, payload) {
        return None;
    }
    let is_kept = talk.on_watch(seq);
    if is_kept { Some(payload) } else { None }
}

/// The values are all outputs of the slave with this id.
#[inline(always)]
fn are_all(id: u8, size: usize, data_id: u16, payload: &[u8]) -> bool
    ensures { result ≡ ((data_id == id) && (length payload.now == size)) }
{
    data_id == u16::from(id) && payload.len() == size
}

#[inline(always)]
fn take_hint(talk: &mut Conversation, sender: u8)
    requires { talk.old.is_due ≡ false }
    ensures stands { (marks : List Mark) (slave : Slave) → Stands talk.old marks → slave.id ≡ talk.old.id → Stands talk.new (extended talk.old.limits (mark_for slave marks (Hints sender)) marks) }
    ensures due { (marks : List Mark) (slave : Slave) → Stands talk.old marks → slave.id ≡ talk.old.id → CanSendAfter talk.old.limits talk.old.id (mark_for slave marks (Hints sender)) marks → due_of talk.new ≡ messages_if talk.old.limits talk.old.id (mark_for slave marks (Hints sender)) marks }
    ensures given { (talk.new.id ≡ talk.old.id) × (talk.new.limits ≡ talk.old.limits) }
{
    if sender == talk.id {
        talk.on_hint();
    }
}

/// A datagram comes from the slave that the conversation is with. `size` is the length of all its
/// outputs, `setup` the list of the present task. Where the datagram brings the outputs that the task
/// needs, they are the answer.
#[inline(always)]
pub fn hear<'a>(
    talk: &mut Conversation,
    size: usize,
    setup: &[Cfg],
    bytes: &'a [u8],
) -> Option<&'a [u8]>
    requires { talk.old.is_due ≡ false }
    ensures stands { (marks : List Mark) (slave : Slave) → Stands talk.old marks → HasList marks setup.now → IsWith talk.old slave size → Stands talk.new (extended talk.old.limits (mark_for slave marks (news_of bytes.now)) marks) }
    ensures due { (marks : List Mark) (slave : Slave) → Stands talk.old marks → HasList marks setup.now → IsWith talk.old slave size → CanSendAfter talk.old.limits talk.old.id (mark_for slave marks (news_of bytes.now)) marks → due_of talk.new ≡ messages_if talk.old.limits talk.old.id (mark_for slave marks (news_of bytes.now)) marks }
    ensures taken { (marks : List Mark) (slave : Slave) → Stands talk.old marks → IsWith talk.old slave size → option_map (λ out. out.now) result ≡ answer_taken (mark_for slave marks (news_of bytes.now)) marks }
    ensures sized { IfSome result (λ out. length out.now ≡ size) }
    ensures given { (talk.new.id ≡ talk.old.id) × (talk.new.limits ≡ talk.old.limits) }
{
    match read(bytes) {
        Some(message) => take_message(talk, size, setup, message),
        None => None,
    }
}
