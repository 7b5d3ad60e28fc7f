//! Where a run stands: the phases one after the other.

ghost use Rattle.std.specs.Prelude.{◌≡◌, ◌≤◌, ◌+◌, ◌-◌, ◌*◌, true};
ghost use Rattle.master_core.specs.Stages as specs;

use master_spec::{Script, Task};
use pdu_layout::Cfg;

/// What all slaves are to do in a phase.
#[derive(Clone, Copy, Debug, PartialEq, Eq)]
pub(crate) enum Part {
    Register,
    Setup,
    Prepare,
    Configure,
    Initialize,
    FirstOutputs,
    Run,
    Step { k: u32 },
    Outputs { k: u32 },
    Stop,
    Reset,
    Adjust,
    Deregister,
}

/// A phase of a run, from 1.
#[derive(Clone, Copy, Debug, PartialEq, Eq)]
pub(crate) struct Stage {
    pub run: u32,
    pub part: Part,
}

/// The steps of each run, the runs, and the present phase: the first before any has begun.
#[derive(Debug, Drop)]
pub(crate) struct Schedule {
    /// 0 to 100,000.
    pub steps: u32,
    /// 1 to 100.
    pub runs: u32,
    pub stage: Stage,
    ghost few_steps: { steps ≤ 100000 },
    ghost few_runs: { runs ≤ 100 },
    ghost first: { 1 ≤ stage.run },
    ghost last: { stage.run ≤ runs },
    ghost within: { specs.is_part_within steps runs stage.run stage.part ≡ true },
}

impl Stage {
    /// The first phase.
    pub fn first() -> Stage
        ensures { result ≡ record { run = 1; part = Part.Register } }
    {
        Stage {
            run: 1,
            part: Part::Register,
        }
    }

    /// The next phase; none after the last.
    pub fn next(self, steps: u32, runs: u32) -> Option<Stage>
        requires { self.run ≤ 100 }
        ensures { result ≡ specs.next_in steps runs self.run self.part }
    {
        let run = self.run;
        let part = match self.part {
            Part::Register => Part::Setup,
            Part::Setup => Part::Prepare,
            Part::Prepare => Part::Configure,
            Part::Configure => Part::Initialize,
            Part::Initialize => Part::FirstOutputs,
            Part::FirstOutputs => Part::Run,
            Part::Run => after_step(0, steps),
            Part::Step { k } => Part::Outputs { k },
            Part::Outputs { k } => after_step(k, steps),
            Part::Stop => {
                if run < runs {
                    Part::Reset
                } else {
                    Part::Deregister
                }
            }
            Part::Reset => Part::Adjust,
            Part::Adjust => {
                return Some(Stage {
                    run: run + 1,
                    part: Part::Prepare,
                });
            }
            Part::Deregister => return None,
        };
        Some(Stage { run, part })
    }

    /// The row of its outputs, counted over all runs.
    pub fn row(self, steps: u32) -> Option<u32>
        requires run { (1 ≤ self.run) × (self.run ≤ 100) }
        requires steps { steps ≤ 100000 }
        requires part { specs.IsWithin steps self.part }
        ensures { result ≡ specs.part_row steps self.run self.part }
    {
        match self.part {
            Part::FirstOutputs => Some(first_row(self.run, steps)),
            Part::Outputs { k } => Some(first_row(self.run, steps) + k),
            _ => None,
        }
    }

    /// The task of a slave with this identity.
    pub fn task(self, steps: u32, uuid: u128) -> Task
        requires run { (1 ≤ self.run) × (self.run ≤ 100) }
        requires steps { steps ≤ 100000 }
        requires part { specs.IsWithin steps self.part }
        ensures { result ≡ specs.part_task steps uuid self.run self.part }
    {
        let first = first_row(self.run, steps);
        match self.part {
            Part::Register => Task::Register { uuid },
            Part::Setup => Task::Setup,
            Part::Prepare => Task::Prepare,
            Part::Configure => Task::Configure,
            Part::Initialize => Task::Initialize,
            Part::FirstOutputs => Task::FirstOutputs { row: first },
            Part::Run => Task::Run,
            Part::Step { k } => Task::Step { k },
            Part::Outputs { k } => Task::Outputs { k, row: first + k },
            Part::Stop => Task::Stop,
            Part::Reset => Task::Reset,
            Part::Adjust => Task::Adjust,
            Part::Deregister => Task::Deregister,
        }
    }

    /// The list of a slave.
    pub fn list(self, script: &Script) -> &[Cfg]
        requires { 1 ≤ self.run }
        ensures { result.now ≡ specs.list_in script.now self.run self.part }
    {
        match self.part {
            Part::Setup => script.setup.as_slice(),
            Part::Adjust => match script.adjusts.as_slice().get((self.run - 1) as usize) {
                Some(list) => list.as_slice(),
                None => &[],
            },
            _ => &[],
        }
    }
}

/// After so many steps of a run.
fn after_step(k: u32, steps: u32) -> Part
    ensures { result ≡ specs.after_step k steps }
{
    if k < steps {
        Part::Step { k: k + 1 }
    } else {
        Part::Stop
    }
}

/// The row that a run begins with.
fn first_row(run: u32, steps: u32) -> u32
    requires run { (1 ≤ run) × (run ≤ 100) }
    requires steps { steps ≤ 100000 }
    ensures value { result ≡ (run - 1) * (steps + 1) }
    ensures small { result ≤ 9900099 }
{
    (run - 1) * (steps + 1)
}
