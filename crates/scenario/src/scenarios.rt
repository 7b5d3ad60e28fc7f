//! A scenario: slaves, the wires between them, and how they are run.

ghost use Rattle.std.specs.Prelude.{◌≡◌};
ghost use Rattle.scenario.specs.Settings.{changed_by, setting_in};

use crate::net_plans::NetPlan;
use crate::slave_lists::Slaves;
use dcp_types::{Address, Items, Limits, Protocol};

/// A wire from an output port to an input port. Slaves count from 1 in the text's order, ports from 0.
#[derive(Clone, Copy, Debug, PartialEq, Eq)]
pub struct Wire {
    /// The slave that sends.
    pub from: u8,
    /// Its output port.
    pub out: u8,
    /// The slave that receives.
    pub to: u8,
    /// Its input port.
    pub into: u8,
}

/// A parameter of a model that is set before the first run. Slaves count from 1, parameters from 0.
#[derive(Clone, Copy, Debug, PartialEq, Eq)]
pub struct Setting {
    pub slave: u8,
    pub index: u8,
    pub value: i64,
}

impl Setting {
    /// Changes the parameter among those of a slave, where it is this slave's and is there.
    pub fn change(self, slave: u8, parameters: &mut [i64])
        ensures { parameters.new ≡ changed_by parameters.old slave self }
    {
        let index = usize::from(self.index);
        if self.slave == slave && index < parameters.len() {
            parameters[index] = self.value;
        }
    }
}

/// The data that goes from one slave to another is sent at each `q`-th step, 1 to 1,000. A pair of
/// slaves with wires and without such an interval has the interval 1.
#[derive(Clone, Copy, Debug, PartialEq, Eq)]
pub struct Every {
    pub from: u8,
    pub to: u8,
    pub q: u32,
}

/// A parameter of a model that is set before a later run, from 2, and stays set for those after it.
#[derive(Clone, Copy, Debug, PartialEq, Eq)]
pub struct Rerun {
    pub run: u32,
    pub slave: u8,
    pub index: u8,
    pub value: i64,
}

impl Rerun {
    /// What it sets.
    pub fn setting(self) -> Setting
        ensures { result ≡ setting_in self }
    {
        Setting {
            slave: self.slave,
            index: self.index,
            value: self.value,
        }
    }
}

/// Wires in order.
pub type Wires = Items<Wire>;

/// Settings in the order in which they are made.
pub type Settings = Items<Setting>;

/// Intervals in order.
pub type Intervals = Items<Every>;

/// Settings before later runs, in the order in which they are made.
pub type Reruns = Items<Rerun>;

/// A scenario. `IsScenario` is the condition of those that a text can give.
#[derive(Debug, Drop)]
pub struct Scenario {
    /// The steps of each run, 0 to 100,000.
    pub steps: u32,
    /// The micro steps of a step, 1 to 1,000.
    pub micro: u32,
    /// The runs of one registration, 1 to 100.
    pub runs: u32,
    pub protocol: Protocol,
    /// The master's address.
    pub master: Address,
    pub limits: Limits,
    /// 1 to 16 slaves. The first is slave 1.
    pub slaves: Slaves,
    pub wires: Wires,
    pub settings: Settings,
    pub every: Intervals,
    /// In the order of their runs.
    pub reruns: Reruns,
    /// What the network in memory does to messages.
    pub net: NetPlan,
}
