//! The numbers of data messages.

ghost use Rattle.std.specs.Prelude.{◌≡◌, ◌==◌, ◌+◌, ◌/◌, ◌%◌};

/// How many messages of an id follow its first one in so many steps of a run; none where the interval
/// is 0.
pub(crate) fn in_run(steps: u32, interval: u32) -> u32
    ensures { result ≡ steps / interval }
{
    if interval == 0 { 0 } else { steps / interval }
}

/// Whether so many steps end an interval.
pub(crate) fn is_end(steps: u32, interval: u32) -> bool
    ensures { result ≡ (steps % interval == 0) }
{
    if interval == 0 {
        steps == 0
    } else {
        steps % interval == 0
    }
}

/// The number of an id after so many steps: it goes round.
pub(crate) fn number_after(base: u16, steps: u32, interval: u32) -> u16
    ensures { result ≡ (base + steps / interval) % 65536 }
{
    base.wrapping_add((in_run(steps, interval) % 65_536) as u16)
}

/// The number of an id's first message after a restart.
pub(crate) fn base_after(base: u16, steps: u32, interval: u32) -> u16
    ensures { result ≡ (base + (steps / interval + 1)) % 65536 }
{
    number_after(base, steps, interval).wrapping_add(1)
}
