//! All phases of all runs, and the present one.

ghost use Rattle.std.specs.Prelude.{◌≡◌, ◌≤◌, None, MatchOption};
ghost use Rattle.master_core.specs.Stages as specs;
ghost use Rattle.master_core.specs.Scheduled.{IsAfter};

use crate::stages::{Schedule, Stage};
use master_spec::{Script, Task};
use pdu_layout::Cfg;

impl Schedule {
    /// The first phase of so many runs of so many steps.
    pub fn new(steps: u32, runs: u32) -> Schedule
        requires steps { steps ≤ 100000 }
        requires runs { (1 ≤ runs) × (runs ≤ 100) }
        ensures steps { result.steps ≡ steps }
        ensures runs { result.runs ≡ runs }
        ensures stage { result.stage ≡ specs.first_stage }
    {
        Schedule {
            steps,
            runs,
            stage: Stage::first(),
        }
    }

    /// At the next phase; none after the last.
    pub fn advanced(&self) -> Option<Schedule>
        ensures { MatchOption result (specs.next_in self.now.steps self.now.runs self.now.stage.run self.now.stage.part ≡ None) (λ s. IsAfter self.now s) }
    {
        match self.stage.next(self.steps, self.runs) {
            Some(stage) => Some(Schedule {
                steps: self.steps,
                runs: self.runs,
                stage,
            }),
            None => None,
        }
    }

    /// The row whose outputs the present phase brings, counted over all runs.
    pub fn row(&self) -> Option<u32>
        ensures { result ≡ specs.part_row self.now.steps self.now.stage.run self.now.stage.part }
    {
        self.stage.row(self.steps)
    }

    /// The task of a slave with this identity in the present phase.
    pub fn task(&self, uuid: u128) -> Task
        ensures { result ≡ specs.part_task self.now.steps uuid self.now.stage.run self.now.stage.part }
    {
        self.stage.task(self.steps, uuid)
    }

    /// The list of a slave that goes with it.
    pub fn list<'a>(&self, script: &'a Script) -> &'a [Cfg]
        ensures { result.now ≡ specs.list_in script.now self.now.stage.run self.now.stage.part }
    {
        self.stage.list(script)
    }
}
