//! A queue of deliveries, in the order of their due numbers.

ghost use Rattle.std.specs.Prelude.{◌≡◌, ◌≤◌, ◌<◌, ◌+◌, ◌++◌, length, IfSome};
ghost use Rattle.std.specs.List.{filter, insert};
ghost use Rattle.std.specs.Option.{option_to_list};
ghost use Rattle.std.specs.VecDeque.{deque_len, deque_capacity};
ghost use Rattle.dcp_net.specs.Firsts.{first_that, without_first};
ghost use Rattle.net_world.specs.declared.deliveries.Arrival.{Arrival};
ghost use Rattle.net_world.specs.Deliveries.{all_placed, is_due_now, is_young, put_in_place};
ghost use Rattle.net_world.specs.Queues.{AllShort, FrontIsYoung, InOrder};

use crate::deliveries::Arrival;
use std::collections::VecDeque;

/// A delivery with more later messages than this is gone.
const OLDEST: u64 = 32_767;

/// Where a delivery with this due number stands: behind those that are due no later.
fn place_of(queue: &VecDeque<Arrival>, due: u64) -> usize
    requires { InOrder queue.now.items }
    ensures within { result ≤ length queue.now.items }
    ensures place { (d : Arrival) → d.due ≡ due → put_in_place d queue.now.items ≡ insert queue.now.items result d }
{
    let mut i = queue.len();
    while i > 0 {
        if queue[i - 1].due <= due {
            return i;
        }
        i -= 1;
    }
    0
}

/// Puts a delivery to its place in the queue, which has room for it.
pub fn place(queue: &mut VecDeque<Arrival>, delivery: Arrival)
    requires room { deque_len queue.old < deque_capacity queue.old }
    requires order { InOrder queue.old.items }
    ensures items { queue.new.items ≡ put_in_place delivery queue.old.items }
    ensures order { InOrder queue.new.items }
    ensures len { deque_len queue.new ≡ deque_len queue.old + 1 }
    ensures capacity { deque_capacity queue.old ≤ deque_capacity queue.new }
{
    let i = place_of(queue, delivery.due);
    match queue.insert(i, delivery) {
        Ok(()) => {}
        Err(_) => unreachable!(),
    }
}

/// Puts the deliveries of a message to their places in the queue, which has room for two.
pub fn place_all(queue: &mut VecDeque<Arrival>, first: Option<Arrival>, second: Option<Arrival>)
    requires room { deque_len queue.old + 2 ≤ deque_capacity queue.old }
    requires order { InOrder queue.old.items }
    ensures { queue.new.items ≡ all_placed (option_to_list first ++ option_to_list second) queue.old.items }
{
    if let Some(delivery) = first {
        place(queue, delivery);
    }
    if let Some(delivery) = second {
        place(queue, delivery);
    }
}

/// Removes the deliveries at the front that are gone.
fn drop_gone(queue: &mut VecDeque<Arrival>, sent: u64)
    requires order { InOrder queue.old.items }
    requires fit { AllShort queue.old.items }
    ensures young { filter (is_young sent) queue.new.items ≡ filter (is_young sent) queue.old.items }
    ensures front { FrontIsYoung sent queue.new.items }
    ensures order { InOrder queue.new.items }
    ensures fit { AllShort queue.new.items }
{
    while let Some(front) = queue.front() {
        if sent.saturating_sub(front.number) <= OLDEST {
            return;
        }
        let _ = queue.pop_front();
    }
}

/// Takes the first delivery that is due when so many messages have been sent.
pub fn next_due(queue: &mut VecDeque<Arrival>, sent: u64) -> Option<Arrival>
    requires order { InOrder queue.old.items }
    requires fit { AllShort queue.old.items }
    ensures due { result ≡ first_that (is_due_now sent) (filter (is_young sent) queue.old.items) }
    ensures rest { filter (is_young sent) queue.new.items ≡ without_first (is_due_now sent) (filter (is_young sent) queue.old.items) }
    ensures order { InOrder queue.new.items }
    ensures fit { AllShort queue.new.items }
    ensures fits { IfSome result (λ d. length d.bytes ≤ 1025) }
{
    drop_gone(queue, sent);
    let Some(front) = queue.front() else {
        return None;
    };
    if sent < front.due {
        return None;
    }
    queue.pop_front()
}
