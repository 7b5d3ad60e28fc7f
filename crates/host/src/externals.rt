//! Hosted slaves whose models are not this program's, so that they cannot run here.

ghost use Rattle.std.specs.Prelude.{◌≡◌, ◌≤◌, ◌+◌, ◌&&◌, length, IfNone, IfSome};
ghost use Rattle.fixed_models.specs.Kinds.{is_external};
ghost use Rattle.scenario.specs.Sound.{IsScenario, HaveModels};
ghost use Rattle.host.specs.Externals.{external_from, external_in};
ghost use Rattle.host.specs.Hosting.{hosted_from, hosted_slaves, is_hosted};

use crate::hosted::Hosted;
use scenario::Scenario;
use slave_desc::SlaveDesc;

/// Whether the slave of this number, 1 to 16, is hosted and its model is not here.
fn lacks_model(hosted: Hosted, slave: u8, desc: &SlaveDesc) -> bool
    requires { (1 ≤ slave) × (slave ≤ 16) }
    ensures { result ≡ (is_hosted hosted slave && is_external desc.now.kind) }
{
    hosted.has(slave) && desc.kind.is_external()
}

/// The first of these slaves, which are numbered from this number on, that is hosted and whose model is
/// not here.
fn external_from(hosted: Hosted, slave: u8, descs: &[SlaveDesc]) -> Option<u8>
    requires { (1 ≤ slave) × (slave + length descs.now ≤ 17) }
    ensures first { result ≡ external_from hosted slave descs.now }
    ensures models { IfNone result (HaveModels (hosted_from hosted slave descs.now)) }
    ensures within { IfSome result (λ s. (1 ≤ s) × (s ≤ 16)) }
{
    let [desc, rest @ ..] = descs else {
        return None;
    };
    if lacks_model(hosted, slave, desc) {
        return Some(slave);
    }
    external_from(hosted, slave + 1, rest)
}

/// The first hosted slave of the scenario whose model is not one of this program's: it cannot run here.
pub fn external_in(scenario: &Scenario, hosted: Hosted) -> Option<u8>
    requires { IsScenario scenario.now }
    ensures first { result ≡ external_in scenario.now hosted }
    ensures models { IfNone result (HaveModels (hosted_slaves scenario.now hosted)) }
    ensures within { IfSome result (λ s. (1 ≤ s) × (s ≤ 16)) }
{
    external_from(hosted, 1, scenario.slaves.as_slice())
}
