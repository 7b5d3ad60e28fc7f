//! Reads a scenario.

ghost use Rattle.std.specs.Prelude.{Ok, IfErr, IfOk};
ghost use Rattle.std.specs.Str.Lines.{lines};
ghost use Rattle.text_lines.specs.Outcomes.{GivesText};
ghost use Rattle.text_lines.specs.Runs.{run_of};
ghost use Rattle.scenario_text.specs.Machine.{reader_at_start, take_scenario_line, scenario_finished};
ghost use Rattle.text_lines.specs.Readings.{IsFirstBad, ReadsOrRefused, NeverReadsAndRefused, OneValue, OneFault};
ghost use Rattle.scenario_text.specs.Judging.{scenario_why_at};
ghost use Rattle.scenario_text.specs.Reads.{ReadsAsScenario};
ghost use Rattle.scenario.specs.Sound.{IsScenario};
ghost use Rattle.scenario.specs.declared.scenarios.Scenario.{Scenario};

use crate::readers::Reader;
use scenario::Scenario;
use std::alloc::Global;
use text_lines::{LineRefused, TextFault, TextRefused, lines};

fn read(alloc: Global, text: &[u8]) -> Result<Scenario, TextRefused>
    ensures { GivesText result (run_of take_scenario_line scenario_finished 1 reader_at_start (lines text.now)) }
{
    let Ok(lines) = lines(alloc, text) else {
        return Err(TextRefused::OutOfMemory);
    };
    let mut reader = Reader::new(alloc);
    let mut number: u32 = 1;
    for line in &lines {
        match reader.take_line(alloc, line) {
            Ok(()) => number = number.saturating_add(1),
            Err(LineRefused::Why(why)) => {
                return Err(TextRefused::Fault(TextFault { line: number, why }));
            }
            Err(LineRefused::OutOfMemory) => return Err(TextRefused::OutOfMemory),
        }
    }
    match reader.finish(alloc) {
        Ok(scenario) => Ok(scenario),
        Err(LineRefused::Why(why)) => Err(TextRefused::Fault(TextFault { line: number, why })),
        Err(LineRefused::OutOfMemory) => Err(TextRefused::OutOfMemory),
    }
}

/// The scenario that a text is, or its first fault.
pub fn read_scenario(alloc: Global, text: &[u8]) -> Result<Scenario, TextRefused>
    ensures ok { IfOk result (λ s. ReadsAsScenario text.now s) }

    // What was read is in range: each slave, port, setting and interval that it names is there, and
    // no two of its names, addresses, wires into an input or intervals of a pair clash.
    ensures range { IfOk result (λ s. IsScenario s) }

    // What reads is read, unless memory runs out.
    ensures only { (s : Scenario) → ReadsAsScenario text.now s → GivesText result (Ok s) }

    // Else the fault is the first line that is refused.
    ensures fault { IfErr result (λ e. IsFirstBad scenario_why_at text.now e) }
{
    read(alloc, text)
}

/// The law of the grammar: each text is one scenario, or has one first line that is refused.
pub fn reads_or_refused()
    ensures either { ReadsOrRefused ReadsAsScenario scenario_why_at }
    ensures never_both { NeverReadsAndRefused ReadsAsScenario scenario_why_at }
    ensures one_value { OneValue ReadsAsScenario }
    ensures one_fault { OneFault scenario_why_at }
{}
