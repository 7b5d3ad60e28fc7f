//! What settings in order come to: the last one of each parameter.

ghost use Rattle.std.specs.Prelude.{◌≡◌, ◌==◌, ◌&&◌, ◌++◌, ◌∷◌, [], false, OnOk, AllPairs};
ghost use Rattle.scenario_text.specs.LastSettings.{same_parameter, SameSettings};

use dcp_types::OutOfMemory;
use scenario::Setting;
use std::alloc::Global;
use std::marker::Model;

/// The settings that still count, at most one of each parameter.
#[derive(Debug, Drop)]
pub struct LatestSettings {
    items: Vec<Setting>,
}

impl Model for LatestSettings {
    ghost use Rattle.std.specs.Prelude.{List, ◌≡◌, false, AllPairs};
    ghost use Rattle.scenario.specs.declared.scenarios.Setting.{Setting};

    ghost Value = { List Setting };

    ghost use Rattle.scenario_text.specs.LastSettings.{same_parameter};

    ghost view = { λ n. n.items.items };

    ghost invariant = { λ n. AllPairs (λ x y. same_parameter x y ≡ false) n.items.items };
}

fn same_parameter(a: Setting, b: Setting) -> bool
    ensures { result ≡ same_parameter a b }
{
    a.slave == b.slave && a.index == b.index
}

impl LatestSettings {
    /// No settings. It takes no memory.
    pub fn new(alloc: Global) -> LatestSettings
        ensures { result ≡ [] }
    {
        LatestSettings {
            items: Vec::new(alloc),
        }
    }

    /// The settings that still count.
    pub fn as_slice(&self) -> &[Setting]
        ensures items { result.now ≡ self.now }

        // So they are no more than the parameters, however many settings there were.
        ensures one_each { AllPairs (λ x y. same_parameter x y ≡ false) result.now }
    {
        self.items.as_slice()
    }

    /// Adds a setting in the place of an earlier one of its parameter. After want of memory the
    /// value is of no use.
    pub fn put(&mut self, setting: Setting) -> Result<(), OutOfMemory>
        ensures { OnOk result (SameSettings self.new (self.old ++ setting ∷ [])) }
    {
        self.items.retain(|x| !same_parameter(*x, setting));
        self.items.push(setting)?;
        Ok(())
    }
}
