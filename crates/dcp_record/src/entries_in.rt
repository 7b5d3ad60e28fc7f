//! Entries at the front of bytes.

ghost use Rattle.std.specs.Prelude.{◌≡◌, ◌+◌, ◌<◌, ◌≤◌, ◌^◌, ◌∷◌, IfOk, IfErr};
ghost use Rattle.dcp_record.specs.Refusals.{EntryRefused, entry_place};
ghost use Rattle.dcp_record.specs.EntryRefs.{entry_told};
ghost use Rattle.dcp_record.specs.Cuts.{IsExchange, ExchangeRefused, IsFirstEntry};

use crate::entry_refs::EntryRef;
use crate::faults::{TraceFault, TraceWhy};
use crate::numbers_in::{cut_address, cut_u16};
use dcp_types::Address;

/// A datagram with its two addresses, the first being that of the end whose entry it is.
#[derive(Clone, Copy)]
struct Exchange<'a> {
    first: Address,
    second: Address,
    payload: &'a [u8],
}

/// Two addresses, a length from `least` to `most`, and so many bytes; and what is left.
fn cut_exchange(bytes: &[u8], least: usize, most: usize) -> Result<(Exchange<'_>, &[u8]), TraceWhy>
    requires least { least ≤ 1 }
    requires most { 1024 ≤ most }
    ensures ok { IfOk result (λ cut. IsExchange least most bytes.now cut.0.first cut.0.second cut.0.payload.now cut.1.now) }
    ensures err { IfErr result (λ why. ExchangeRefused least most bytes.now why) }
{
    let Some((first, after_first)) = cut_address(bytes) else {
        return Err(TraceWhy::Short);
    };
    let Some((second, after_second)) = cut_address(after_first) else {
        return Err(TraceWhy::Short);
    };
    let Some((size, after_size)) = cut_u16(after_second) else {
        return Err(TraceWhy::Short);
    };
    let size = usize::from(size);
    if size < least || size > most {
        return Err(TraceWhy::Length);
    }
    if after_size.len() < size {
        return Err(TraceWhy::Short);
    }
    let (payload, rest) = after_size.split_at(size);
    Ok((
        Exchange {
            first,
            second,
            payload,
        },
        rest,
    ))
}

/// What follows the tag of a datagram that was sent.
fn cut_sent(bytes: &[u8]) -> Result<(EntryRef<'_>, &[u8]), TraceWhy>
    ensures ok { IfOk result (λ cut. IsFirstEntry (1 ∷ bytes.now) (entry_told cut.0) cut.1.now) }
    ensures err { IfErr result (λ why. EntryRefused (1 ∷ bytes.now) why) }
{
    let (exchange, rest) = cut_exchange(bytes, 1, 1_024)?;
    let entry = EntryRef::Sent {
        from: exchange.first,
        to: exchange.second,
        bytes: exchange.payload,
    };
    Ok((entry, rest))
}

/// What follows the tag of a datagram that was got.
fn cut_got(bytes: &[u8]) -> Result<(EntryRef<'_>, &[u8]), TraceWhy>
    ensures ok { IfOk result (λ cut. IsFirstEntry (2 ∷ bytes.now) (entry_told cut.0) cut.1.now) }
    ensures err { IfErr result (λ why. EntryRefused (2 ∷ bytes.now) why) }
{
    let (exchange, rest) = cut_exchange(bytes, 0, 1_025)?;
    let entry = EntryRef::Got {
        at: exchange.first,
        from: exchange.second,
        bytes: exchange.payload,
    };
    Ok((entry, rest))
}

/// What follows the tag of a look that found nothing.
fn cut_idle(bytes: &[u8]) -> Result<(EntryRef<'_>, &[u8]), TraceWhy>
    ensures ok { IfOk result (λ cut. IsFirstEntry (3 ∷ bytes.now) (entry_told cut.0) cut.1.now) }
    ensures err { IfErr result (λ why. EntryRefused (3 ∷ bytes.now) why) }
{
    let Some((at, rest)) = cut_address(bytes) else {
        return Err(TraceWhy::Short);
    };
    Ok((EntryRef::Idle { at }, rest))
}

/// What follows the tag of a turn.
fn cut_turn(bytes: &[u8]) -> Result<(EntryRef<'_>, &[u8]), TraceWhy>
    ensures ok { IfOk result (λ cut. IsFirstEntry (4 ∷ bytes.now) (entry_told cut.0) cut.1.now) }
    ensures err { IfErr result (λ why. EntryRefused (4 ∷ bytes.now) why) }
{
    let Some((at, rest)) = cut_address(bytes) else {
        return Err(TraceWhy::Short);
    };
    Ok((EntryRef::Turn { at }, rest))
}

/// The entry with this tag, whose other bytes are at the front of these; and what is left.
#[inline(always)]
pub fn cut_entry(tag: u8, bytes: &[u8]) -> Result<(EntryRef<'_>, &[u8]), TraceWhy>
    ensures ok { IfOk result (λ cut. IsFirstEntry (tag ∷ bytes.now) (entry_told cut.0) cut.1.now) }
    ensures err { IfErr result (λ why. EntryRefused (tag ∷ bytes.now) why) }
{
    match tag {
        1 => cut_sent(bytes),
        2 => cut_got(bytes),
        3 => cut_idle(bytes),
        4 => cut_turn(bytes),
        _ => Err(TraceWhy::Tag),
    }
}

/// The refusal of an entry that begins at this place, where `rest` begins.
pub fn fault_at(why: TraceWhy, at: usize, rest: &[u8]) -> TraceFault
    requires { at + entry_place rest.now why < 2 ^ 64 }
    ensures { result ≡ record { at = at + entry_place rest.now why; why = why } }
{
    let inner = match why {
        TraceWhy::Header | TraceWhy::Tag => 0,
        TraceWhy::Length => 13,
        TraceWhy::Short => rest.len(),
    };
    TraceFault {
        at: (at + inner) as u64,
        why,
    }
}
