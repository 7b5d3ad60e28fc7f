//! The scenarios of the tests.

ghost use Rattle.std.specs.Prelude.{IfOk};
ghost use Rattle.scenario.specs.Sound.{IsScenario};

use scenario::Scenario;
use scenario_text::read_scenario;
use std::alloc::{AllocError, Global};
use std::test::Fail;

/// One slave, which counts the steps.
const COUNT: &[u8] =
    b"steps 3\nmaster 127.0.0.1 9000\nslave count\nuuid 00000000-0000-0000-0000-000000000001\naddress 127.0.0.1 9001\nmodel counter 1000\noutput 1 uint32\n";

/// Two slaves: an amplifier and an integrator in a ring.
const RING: &[u8] =
    b"steps 5\nmaster 127.0.0.1 9000\nslave amp\nuuid 00000000-0000-0000-0000-000000000001\naddress 127.0.0.1 9001\nmodel gain 131072\ninput 1 int32\noutput 2 int32\nslave acc\nuuid 00000000-0000-0000-0000-000000000002\naddress 127.0.0.1 9002\nmodel integrator 10 32768\ninput 1 int32\noutput 2 int32\nwire amp 0 acc 0\nwire acc 0 amp 0\n";

/// Three slaves: a falling ramp into two dividers.
const FAN: &[u8] =
    b"steps 6\nmaster 127.0.0.1 9000\nslave fall\nuuid 00000000-0000-0000-0000-000000000001\naddress 127.0.0.1 9001\nmodel ramp 3 -1\noutput 1 int32\nslave da\nuuid 00000000-0000-0000-0000-000000000002\naddress 127.0.0.1 9002\nmodel divider 12\ninput 1 int32\noutput 2 int32\nslave db\nuuid 00000000-0000-0000-0000-000000000003\naddress 127.0.0.1 9003\nmodel divider -7\ninput 1 int32\noutput 2 int32\nwire fall 0 da 0\nwire fall 0 db 0\n";

/// The text of the scenario that a cell writes on one line: `;` is a line feed, and `$`, `&` and `%`
/// are the texts `COUNT`, `RING` and `FAN`.
fn unfolded(alloc: Global, cell: &str) -> Result<Vec<u8>, AllocError> {
    let mut text = Vec::new(alloc);
    for byte in cell.as_bytes() {
        match *byte {
            b';' => text.extend_from_slice(b"\n")?,
            b'$' => text.extend_from_slice(COUNT)?,
            b'&' => text.extend_from_slice(RING)?,
            b'%' => text.extend_from_slice(FAN)?,
            byte => text.extend_from_slice(&[byte])?,
        }
    }
    Ok(text)
}

/// The scenario that a cell writes on one line.
pub fn scenario_of(alloc: Global, cell: &str) -> Result<Scenario, Fail>
    ensures { IfOk result (λ s. IsScenario s) }
{
    let text = unfolded(alloc, cell)?;
    Ok(read_scenario(alloc, &text)?)
}
