//! The deliveries that wait, by the address that they are for.

ghost use Rattle.std.specs.Prelude.{◌≡◌, ◌≤◌, ◌<◌, ◌+◌, ◌++◌, IfOk, IfSome, length, false};
ghost use Rattle.std.specs.List.{filter};
ghost use Rattle.std.specs.Option.{option_to_list};
ghost use Rattle.dcp_types.specs.declared.addresses.Address.{Address};
ghost use Rattle.dcp_ends.specs.Logs.{same_address};
ghost use Rattle.dcp_net.specs.Firsts.{first_that, without_first};
ghost use Rattle.net_world.specs.Deliveries.{all_placed, is_due_now, is_young};
ghost use Rattle.net_world.specs.Queues.{AllShort, InOrder};
ghost use Rattle.net_world.specs.Mailboxes.{FindsBox, HasRoomAt, IsFirstBox, queue_of};

use crate::deliveries::Arrival;
use crate::queues::{next_due, place_all};
use dcp_types::Address;
use std::alloc::{AllocError, Global};
use std::collections::VecDeque;

/// The deliveries for one address, in the order in which they are due.
#[derive(Drop)]
pub struct Mailbox {
    pub at: Address,
    pub queue: VecDeque<Arrival>,
}

/// The place of the mailbox of this address.
pub fn find(boxes: &[Mailbox], at: Address) -> Option<usize>
    ensures found { FindsBox at boxes.now result }
    ensures within { IfSome result (λ i. i < length boxes.now) }
{
    for (i, mailbox) in boxes.iter().enumerate() {
        if mailbox.at == at {
            return Some(i);
        }
    }
    None
}

/// The place of the mailbox of this address, which has room for two more deliveries then.
pub fn room_for(alloc: Global, boxes: &mut Vec<Mailbox>, at: Address) -> Result<usize, AllocError>
    ensures same { (a : Address) → queue_of a boxes.new.items ≡ queue_of a boxes.old.items }
    ensures found { IfOk result (λ i. IsFirstBox at boxes.new.items i) }
    ensures within { IfOk result (λ i. i < length boxes.new.items) }
    ensures room { IfOk result (λ i. HasRoomAt i boxes.new.items) }
{
    let i = own_box(alloc, boxes, at)?;
    let mailbox = &mut boxes[i];
    mailbox.queue.reserve(2)?;
    Ok(i)
}

/// The place of the mailbox of this address, which is made where there is none.
fn own_box(alloc: Global, boxes: &mut Vec<Mailbox>, at: Address) -> Result<usize, AllocError>
    ensures same { (a : Address) → queue_of a boxes.new.items ≡ queue_of a boxes.old.items }
    ensures found { IfOk result (λ i. IsFirstBox at boxes.new.items i) }
    ensures within { IfOk result (λ i. i < length boxes.new.items) }
{
    if let Some(i) = find(boxes, at) {
        return Ok(i);
    }
    boxes.reserve(1)?;
    let i = boxes.len();
    boxes.push_reserved(Mailbox {
        at,
        queue: VecDeque::new(alloc),
    });
    Ok(i)
}

/// Takes the next delivery that is due at this address when so many messages have been sent.
pub fn next_for(boxes: &mut [Mailbox], at: Address, sent: u64) -> Option<Arrival>
    requires order { InOrder (queue_of at boxes.old) }
    requires fit { AllShort (queue_of at boxes.old) }
    ensures due { result ≡ first_that (is_due_now sent) (filter (is_young sent) (queue_of at boxes.old)) }
    ensures rest { filter (is_young sent) (queue_of at boxes.new) ≡ without_first (is_due_now sent) (filter (is_young sent) (queue_of at boxes.old)) }
    ensures order { InOrder (queue_of at boxes.new) }
    ensures fit { AllShort (queue_of at boxes.new) }
    ensures others { (a : Address) → same_address at a ≡ false → queue_of a boxes.new ≡ queue_of a boxes.old }
    ensures fits { IfSome result (λ d. length d.bytes ≤ 1025) }
{
    let Some(i) = find(boxes, at) else {
        return None;
    };
    let mailbox = &mut boxes[i];
    next_due(&mut mailbox.queue, sent)
}

/// Puts the deliveries of a message into the mailbox at this place, which is that of their address and
/// has room for two.
pub fn post(
    boxes: &mut [Mailbox],
    i: usize,
    to: Address,
    first: Option<Arrival>,
    second: Option<Arrival>,
)
    requires found { IsFirstBox to boxes.old i }
    requires within { i < length boxes.old }
    requires room { HasRoomAt i boxes.old }
    requires order { InOrder (queue_of to boxes.old) }
    ensures after { queue_of to boxes.new ≡ all_placed (option_to_list first ++ option_to_list second) (queue_of to boxes.old) }
    ensures others { (a : Address) → same_address to a ≡ false → queue_of a boxes.new ≡ queue_of a boxes.old }
{
    let mailbox = &mut boxes[i];
    place_all(&mut mailbox.queue, first, second);
}
