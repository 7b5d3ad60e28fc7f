//! Reads a description.

ghost use Rattle.std.specs.Prelude.{Ok, Err, IfOk, IfErr};
ghost use Rattle.std.specs.Str.Lines.{lines};
ghost use Rattle.text_lines.specs.Outcomes.{GivesText};
ghost use Rattle.text_lines.specs.Runs.{run_of};
ghost use Rattle.desc_text.specs.Judging.{desc_why_at};
ghost use Rattle.desc_text.specs.Reads.{ReadsAsDesc};
ghost use Rattle.text_lines.specs.Readings.{IsFirstBad, ReadsOrRefused, NeverReadsAndRefused, OneValue, OneFault};
ghost use Rattle.slave_desc.specs.Descriptions.{IsDesc};
ghost use Rattle.slave_desc.specs.declared.descriptions.SlaveDesc.{SlaveDesc};
ghost use Rattle.desc_text.specs.Machine.{take_line, finished, nothing};

use crate::partials::Partial;
use slave_desc::SlaveDesc;
use std::alloc::Global;
use text_lines::{LineRefused, TextFault, TextRefused, lines};

fn read(alloc: Global, text: &[u8]) -> Result<SlaveDesc, TextRefused>
    ensures { GivesText result (run_of take_line finished 1 nothing (lines text.now)) }
{
    let Ok(lines) = lines(alloc, text) else {
        return Err(TextRefused::OutOfMemory);
    };
    let mut partial = Partial::new(alloc);
    let mut number: u32 = 1;
    for line in &lines {
        match partial.take_line(alloc, line) {
            Ok(()) => number = number.saturating_add(1),
            Err(LineRefused::Why(why)) => {
                return Err(TextRefused::Fault(TextFault { line: number, why }));
            }
            Err(LineRefused::OutOfMemory) => return Err(TextRefused::OutOfMemory),
        }
    }
    match partial.finish() {
        Ok(desc) => Ok(desc),
        Err(why) => Err(TextRefused::Fault(TextFault { line: number, why })),
    }
}

/// The description that a text is, or its first fault.
pub fn read_desc(alloc: Global, text: &[u8]) -> Result<SlaveDesc, TextRefused>
    ensures ok { IfOk result (λ d. ReadsAsDesc text.now d) }

    // What was read is a description in range, so that its canonical text reads back.
    ensures range { IfOk result (λ d. IsDesc d) }

    // What reads is read, unless memory runs out.
    ensures only { (d : SlaveDesc) → ReadsAsDesc text.now d → GivesText result (Ok d) }

    // Else the fault is the first line that is refused.
    ensures fault { IfErr result (λ e. IsFirstBad desc_why_at text.now e) }
{
    read(alloc, text)
}

/// The law of the grammar: each text is one description, or has one first line that is refused.
pub fn reads_or_refused()
    ensures either { ReadsOrRefused ReadsAsDesc desc_why_at }
    ensures never_both { NeverReadsAndRefused ReadsAsDesc desc_why_at }
    ensures one_value { OneValue ReadsAsDesc }
    ensures one_fault { OneFault desc_why_at }
{}
