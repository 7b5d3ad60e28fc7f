//! What is drawn for a scenario.

ghost use Rattle.std.specs.Prelude.{◌≡◌};
ghost use Rattle.net_world.specs.Chances.{after_steps, draw, generator_step};

/// The factor of the generator, x -> x * FACTOR + SUMMAND modulo 2^64.
const FACTOR: u64 = 6_364_136_223_846_793_005;

/// The summand of the generator.
const SUMMAND: u64 = 1_442_695_040_888_963_407;

/// One step of the generator.
pub(crate) fn generator_step(x: u64) -> u64
    ensures { result ≡ generator_step x }
{
    x.wrapping_mul(FACTOR).wrapping_add(SUMMAND)
}

/// What is drawn where the generator stands at x.
pub(crate) fn draw(x: u64) -> u64
    ensures { result ≡ draw x }
{
    x >> 33
}

/// Where the generator stands after the three draws of a slave.
pub(crate) fn after_slave(x: u64) -> u64
    ensures { result ≡ after_steps 3 x }
{
    generator_step(generator_step(generator_step(x)))
}
