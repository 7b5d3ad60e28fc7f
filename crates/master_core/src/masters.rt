//! The master's calls.

ghost use Rattle.std.specs.Prelude.{◌≡◌, ◌≤◌, ◌-◌, ◌^◌, min, List, [], reverse, length, None, IfOk, option_map, slice_get};
ghost use Rattle.std.specs.List.{list_all};
ghost use Rattle.dcp_ends.specs.Events.{Event};
ghost use Rattle.scenario.specs.Sound.{IsScenario};
ghost use Rattle.master_spec.specs.Plans.{plan_of};
ghost use Rattle.master_spec.specs.Course as course;
ghost use Rattle.master_spec.specs.Course.{Course};
ghost use Rattle.master_spec.specs.Rules.{master_rules, master_rules_from};
ghost use Rattle.master_spec.specs.Setup.{setup_from};
ghost use Rattle.master_core.specs.Columns.{column_value};
ghost use Rattle.master_core.specs.Talking.{Now};
ghost use Rattle.master_core.specs.Standing.{StandsIn, StandsFor, StandsAfter, Meets, IsBehind, core_setup, is_row_due, with_counted, with_talks_turned, with_gram_heard};

use crate::records::{MasterCore, MasterOutbox};
use crate::rows::{Rows, value_in};
use crate::setups::talks_of;
use crate::stages::Schedule;
use crate::surveys::{
    are_quiet, are_settled, column, first_failed, have_passed, put_row, width_of,
};
use crate::turns::{begin_all, hear_one, turn_all};
use config_plan::Plan;
use dcp_types::{Address, OutOfMemory};
use master_spec::Report;
use scenario::Scenario;
use std::alloc::Global;

impl MasterCore {
    /// A master to which nothing has happened. The plan is the scenario's. It takes the memory for all
    /// rows.
    pub fn new(alloc: Global, scenario: &Scenario, plan: &Plan) -> Result<MasterCore, OutOfMemory>
        requires sound { IsScenario scenario.now }
        requires plan { plan.now ≡ plan_of scenario.now }
        ensures stands { IfOk result (λ m. StandsAfter m []) }
        ensures rules { IfOk result (λ m. master_rules_from (core_setup m) ≡ master_rules scenario.now) }
        ensures made { IfOk result (λ m. core_setup m ≡ setup_from scenario.now) }
        ensures quiet { IfOk result (λ m. m.out ≡ []) }
    {
        let talks = talks_of(alloc, scenario, plan)?;
        let lines = scenario.runs as usize * (scenario.steps as usize + 1);
        let rows = Rows::new(alloc, width_of(&talks), lines)?;
        let out = MasterOutbox::new(alloc)?;
        Ok(MasterCore {
            address: scenario.master,
            limits: scenario.limits,
            talks,
            spoke: 0,
            phase: 0,
            schedule: Schedule::new(scenario.steps, scenario.runs),
            rows,
            report: None,
            turns: 0,
            out,
        })
    }

    /// How many rows are whole.
    pub fn rows(&self) -> u32
        ensures { (events : List Event) → StandsAfter self.now events → result ≡ length (course.course (core_setup self.now) (reverse events)).rows }
    {
        self.rows.counted
    }

    /// The values of row k, which counts over all runs: the outputs of all slaves, by slave and then by
    /// port. None where there is no such row.
    pub fn row_values(&self, k: u32) -> Option<&[i128]>
        ensures { (events : List Event) → StandsAfter self.now events → option_map (λ values. values.now) result ≡ slice_get (course.course (core_setup self.now) (reverse events)).rows k }
    {
        self.rows.row(k)
    }

    /// The value of a port in row k, which counts over all runs; slaves count from 1, ports from 0. None
    /// where there is no such row, slave or port.
    pub fn row(&self, k: u32, slave: u8, port: u8) -> Option<i128>
        ensures { (events : List Event) → StandsAfter self.now events → result ≡ column_value (core_setup self.now).slaves (course.course (core_setup self.now) (reverse events)).rows k slave port }
    {
        match column(&self.talks, slave, port) {
            Some(column) => value_in(self.row_values(k), column),
            None => None,
        }
    }

    /// How the run ended, once it has.
    pub fn report(&self) -> Option<Report>
        ensures { (events : List Event) → StandsAfter self.now events → result ≡ (course.course (core_setup self.now) (reverse events)).report }
    {
        self.report
    }

    /// How many turns began without a report.
    pub fn turns(&self) -> u64
        ensures { (events : List Event) → StandsAfter self.now events → result ≡ min (course.master_turns (core_setup self.now) (reverse events)) (2 ^ 64 - 1) }
    {
        self.turns
    }

    /// A row counts once all have passed its phase together.
    fn count_row(&mut self)
        ensures meets { (c : Course) → Meets self.old c → Meets self.new (with_counted c) }
        ensures setup { core_setup self.new ≡ core_setup self.old }
        ensures turns { self.new.turns ≡ self.old.turns }
        ensures out { self.new.out ≡ self.old.out }
    {
        if self.is_row_due() {
            put_row(&self.talks, &mut self.rows.values);
            self.rows.counted = self.rows.counted.saturating_add(1);
        }
    }

    /// The present phase brings the next row, and all have passed it.
    fn is_row_due(&self) -> bool
        ensures { (c : Course) → StandsFor self.now c → result ≡ is_row_due c }
    {
        match self.schedule.row() {
            Some(row) => self.rows.counted == row && have_passed(&self.talks),
            None => false,
        }
    }

    /// The present phase begins for all.
    fn begin_phase(&mut self)
        requires { length self.old.out ≤ 16 }
        ensures meets { (now : Now) (c : Course) → StandsIn now self.old c → IsBehind c.phase self.old.schedule → self.old.out ≡ c.sent → Meets self.new (course.with_next (core_setup self.old) c) }
        ensures setup { core_setup self.new ≡ core_setup self.old }
        ensures turns { self.new.turns ≡ self.old.turns }
    {
        self.phase = self.phase.saturating_add(1);
        begin_all(&mut self.talks, &self.schedule, &mut self.out);
    }

    /// The next phase, or the report after the last one.
    fn go_on(&mut self)
        requires { length self.old.out ≤ 16 }
        ensures meets { (c : Course) → Meets self.old c → 1 ≤ c.phase → Meets self.new (course.decided (core_setup self.old) c None) }
        ensures setup { core_setup self.new ≡ core_setup self.old }
        ensures turns { self.new.turns ≡ self.old.turns }
    {
        match self.schedule.advanced() {
            Some(schedule) => {
                self.schedule = schedule;
                self.begin_phase();
            }
            None => {
                self.report = Some(Report::Finished {
                    steps: self.schedule.steps,
                });
            }
        }
    }

    /// The report, or the next phase.
    fn decide(&mut self)
        requires { length self.old.out ≤ 16 }
        ensures meets { (c : Course) → Meets self.old c → 1 ≤ c.phase → Meets self.new (course.decided (core_setup self.old) c (course.failed c.phase c.talks)) }
        ensures setup { core_setup self.new ≡ core_setup self.old }
        ensures turns { self.new.turns ≡ self.old.turns }
    {
        match first_failed(&self.talks, self.phase) {
            Some(report) => self.report = Some(report),
            None => self.go_on(),
        }
    }

    /// All conversations have their turn.
    fn turn_talks(&mut self)
        requires { self.old.out ≡ [] }
        ensures meets { (c : Course) → StandsFor self.old c → Meets self.new (with_talks_turned (core_setup self.old) c) }
        ensures setup { core_setup self.new ≡ core_setup self.old }
        ensures turns { self.new.turns ≡ self.old.turns }
        ensures room { length self.new.out ≤ 16 }
    {
        let settled = are_settled(&self.talks);
        turn_all(&mut self.talks, settled, &mut self.out);
    }

    /// A turn after the first.
    fn later_turn(&mut self)
        requires { self.old.out ≡ [] }
        ensures meets { (c : Course) → StandsFor self.old c → 1 ≤ c.phase → Meets self.new (course.course_turned (core_setup self.old) (course.with_turns (core_setup self.old) (list_all course.is_settled c.talks) c)) }
        ensures setup { core_setup self.new ≡ core_setup self.old }
        ensures turns { self.new.turns ≡ self.old.turns }
    {
        self.turn_talks();
        self.count_row();
        if are_quiet(&self.talks) {
            self.decide();
        }
    }

    /// A turn before the report.
    pub(crate) fn take_turn(&mut self)
        requires { self.old.out ≡ [] }
        ensures meets { (c : Course) → StandsFor self.old c → Meets self.new (course.course_after_turn (core_setup self.old) c) }
        ensures setup { core_setup self.new ≡ core_setup self.old }
        ensures turns { self.new.turns ≡ self.old.turns }
    {
        if self.phase == 0 {
            self.begin_phase();
        } else {
            self.later_turn();
        }
    }

    /// The conversation that a datagram concerns takes it.
    fn hear(&mut self, from: Address, bytes: &[u8])
        requires { self.old.out ≡ [] }
        ensures meets { (c : Course) → StandsFor self.old c → Meets self.new (with_gram_heard (core_setup self.old) from bytes.now c) }
        ensures setup { core_setup self.new ≡ core_setup self.old }
        ensures turns { self.new.turns ≡ self.old.turns }
    {
        self.spoke = hear_one(
            &mut self.talks,
            self.spoke,
            &self.schedule,
            from,
            bytes,
            &mut self.out,
        );
    }

    /// A datagram before the report.
    pub(crate) fn take_gram(&mut self, from: Address, bytes: &[u8])
        requires { self.old.out ≡ [] }
        ensures meets { (c : Course) → StandsFor self.old c → Meets self.new (course.after_gram (core_setup self.old) from bytes.now c) }
        ensures setup { core_setup self.new ≡ core_setup self.old }
        ensures turns { self.new.turns ≡ self.old.turns }
    {
        self.hear(from, bytes);
        self.count_row();
    }
}
