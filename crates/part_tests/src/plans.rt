//! What is asked of a plan.

ghost use Rattle.std.specs.Prelude.{◌≡◌};
ghost use Rattle.master_spec.specs.Plans.{plan_of};

use config_plan::{DataLink, Plan};
use pdu_codec::encode;
use pdu_layout::{Cfg, Pdu, in_range};
use scenario::Scenario;
use std::alloc::Global;
use std::test::Fail;

/// The setup of a slave that there is.
fn setup_of<'a>(scenario: &Scenario, plan: &'a Plan, slave: u8) -> &'a [Cfg]
    requires { plan.now ≡ plan_of scenario.now }
{
    if 1 <= slave && usize::from(slave) <= scenario.slaves.as_slice().len() {
        plan.setup(slave)
    } else {
        &[]
    }
}

/// What is set for a slave that there is after a run that has a next one.
fn adjust_of<'a>(scenario: &Scenario, plan: &'a Plan, run: u32, slave: u8) -> &'a [Cfg]
    requires { plan.now ≡ plan_of scenario.now }
{
    if 1 <= run
        && run < scenario.runs
        && 1 <= slave
        && usize::from(slave) <= scenario.slaves.as_slice().len()
    {
        plan.adjust(run, slave)
    } else {
        &[]
    }
}

/// Appends the requests to a slave, which are numbered from `first` on.
fn tell_requests(
    alloc: Global,
    told: &mut String,
    slave: u8,
    first: u16,
    requests: &[Cfg],
) -> Result<(), Fail> {
    let mut room = [0; 1024];
    let mut seq = first;
    for body in requests {
        let pdu = Pdu::Cfg {
            seq,
            receiver: slave,
            body: *body,
        };
        if in_range(&pdu) {
            let size = encode(&pdu, &mut room);
            let digits = hex::encode(alloc, &room[..size])?;
            write!(told, "|{digits}")?;
        }
        seq = seq.wrapping_add(1);
    }
    Ok(())
}

/// Appends the data ids.
pub fn tell_links(told: &mut String, links: &[DataLink]) -> Result<(), Fail> {
    for link in links {
        let DataLink {
            id,
            from,
            to,
            every,
        } = *link;
        write!(told, "|{id} {from} {to} {every}")?;
    }
    Ok(())
}

/// Appends the setup of a slave.
pub fn tell_setup(
    alloc: Global,
    told: &mut String,
    scenario: &Scenario,
    plan: &Plan,
    slave: u8,
) -> Result<(), Fail>
    requires { plan.now ≡ plan_of scenario.now }
{
    tell_requests(alloc, told, slave, 2, setup_of(scenario, plan, slave))
}

/// Appends what is set for a slave between the first run and the second.
pub fn tell_adjust(
    alloc: Global,
    told: &mut String,
    scenario: &Scenario,
    plan: &Plan,
    slave: u8,
) -> Result<(), Fail>
    requires { plan.now ≡ plan_of scenario.now }
{
    tell_requests(alloc, told, slave, 0, adjust_of(scenario, plan, 1, slave))
}
