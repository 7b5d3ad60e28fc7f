//! What the network is opened with.

ghost use Rattle.std.specs.Prelude.{◌≡◌, IfOk};
ghost use Rattle.host.specs.Hosting.{all_places, hosted_places, opening_of};

use crate::copies::copied_plan;
use crate::hosted::Hosted;
use dcp_net::{Addresses, Opening};
use dcp_types::OutOfMemory;
use scenario::Scenario;
use std::alloc::Global;

/// The addresses of all ends, the master's first.
fn all_places(alloc: Global, scenario: &Scenario) -> Result<Addresses, OutOfMemory>
    ensures { IfOk result (λ all. all ≡ all_places scenario.now) }
{
    let mut places = Vec::new(alloc);
    places.push(scenario.master)?;
    for desc in scenario.slaves.as_slice() {
        places.push(desc.address)?;
    }
    Ok(Addresses::from_vec(places))
}

/// The addresses of the hosted ends, in the same order.
fn hosted_places(
    alloc: Global,
    scenario: &Scenario,
    hosted: Hosted,
) -> Result<Addresses, OutOfMemory>
    ensures { IfOk result (λ ends. ends ≡ hosted_places scenario.now hosted) }
{
    let mut places = Vec::new(alloc);
    if hosted.master {
        places.push(scenario.master)?;
    }
    let mut slave = 1;
    for desc in scenario.slaves.as_slice() {
        if hosted.has(slave) {
            places.push(desc.address)?;
        }
        slave += 1;
    }
    Ok(Addresses::from_vec(places))
}

/// What the network of this scenario is opened with where these ends are hosted.
pub(crate) fn opening_for(
    alloc: Global,
    scenario: &Scenario,
    hosted: Hosted,
) -> Result<Opening, OutOfMemory>
    ensures { IfOk result (λ opening. opening ≡ opening_of scenario.now hosted) }
{
    Ok(Opening {
        protocol: scenario.protocol,
        all: all_places(alloc, scenario)?,
        ends: hosted_places(alloc, scenario, hosted)?,
        plan: copied_plan(alloc, &scenario.net)?,
    })
}
