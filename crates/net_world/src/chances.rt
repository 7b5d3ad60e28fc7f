//! What chance does with a message that no line of the plan names.

ghost use Rattle.std.specs.Prelude.{◌≡◌, ◌++◌, ◌<◌, ◌^◌, Option};
ghost use Rattle.scenario.specs.declared.net_plans.NetLine.{NetLine};
ghost use Rattle.net_world.specs.Chances.{draw, lags_by_chance, lags_of_draws, generator_step, after_draws};
ghost use Rattle.net_world.specs.Lags.{lags_in};
ghost use Rattle.net_world.specs.Lines.{lags_of_line};

use scenario::{Chaos, NetLine};

/// The factor of the generator, x -> x * FACTOR + SUMMAND modulo 2^64.
const FACTOR: u64 = 6_364_136_223_846_793_005;

/// The summand of the generator.
const SUMMAND: u64 = 1_442_695_040_888_963_407;

/// How many more messages are sent before a message comes, for the first time and for the second. One
/// that is lost does not come.
#[derive(Clone, Copy, Debug)]
pub struct Lags {
    pub first: Option<u32>,
    pub second: Option<u32>,
}

/// One step of the generator.
fn generator_step(x: u64) -> u64
    ensures { result ≡ generator_step x }
{
    x.wrapping_mul(FACTOR).wrapping_add(SUMMAND)
}

/// What is drawn where the generator stands at x.
fn draw(x: u64) -> u64
    ensures { result ≡ draw x }
{
    x >> 33
}

/// Where the generator stands after the four draws of a message.
pub fn after_message(chaos: Option<Chaos>, x: u64) -> u64
    ensures { result ≡ after_draws chaos x }
{
    match chaos {
        Some(_) => generator_step(generator_step(generator_step(generator_step(x)))),
        None => x,
    }
}

/// The lags of a message that no line names, where the generator stands at x before its draws.
pub fn by_chance(chaos: Option<Chaos>, x: u64) -> Lags
    ensures { lags_in result ≡ lags_by_chance chaos x }
{
    match chaos {
        Some(chaos) => {
            let a = generator_step(x);
            let b = generator_step(a);
            let c = generator_step(b);
            by_draws(chaos, draw(a), draw(b), draw(c), draw(generator_step(c)))
        }
        None => Lags {
            first: Some(0),
            second: None,
        },
    }
}

/// The lags by the four draws of a message.
fn by_draws(chaos: Chaos, a: u64, b: u64, c: u64, d: u64) -> Lags
    ensures { lags_in result ≡ lags_of_draws chaos a b c d }
{
    if a % 1000 < u64::from(chaos.drop) {
        return Lags {
            first: None,
            second: None,
        };
    }
    let more = 1 + (d % 3) as u32;
    let first = if c % 1000 < u64::from(chaos.hold) {
        more
    } else {
        0
    };
    let comes_again = b % 1000 < u64::from(chaos.repeat);
    Lags {
        first: Some(first),
        second: comes_again.then_some(first + more),
    }
}

/// The lags of a message that this line is for.
pub fn by_line(line: NetLine) -> Lags
    ensures { lags_in result ≡ lags_of_line line }
{
    match line {
        NetLine::Drop { .. } => Lags {
            first: None,
            second: None,
        },
        NetLine::Copy { lag, .. } => Lags {
            first: Some(0),
            second: Some(lag),
        },
        NetLine::Hold { lag, .. } => Lags {
            first: Some(lag),
            second: None,
        },
    }
}
