//! Reads a talk.

ghost use Rattle.std.specs.Prelude.{Ok, IfOk, IfErr};
ghost use Rattle.std.specs.Str.Lines.{lines};
ghost use Rattle.text_lines.specs.Outcomes.{GivesText};
ghost use Rattle.text_lines.specs.Runs.{run_of};
ghost use Rattle.slave_desc.specs.Descriptions.{IsDesc};
ghost use Rattle.talk_text.specs.Talks.{IsTalk};
ghost use Rattle.text_lines.specs.Readings.{IsFirstBad, ReadsOrRefused, NeverReadsAndRefused, OneValue, OneFault};
ghost use Rattle.talk_text.specs.Judging.{talk_why_at};
ghost use Rattle.talk_text.specs.Machine.{stage_at_start, take_talk_line, talk_finished};
ghost use Rattle.talk_text.specs.declared.events.Talk.{Talk};

use crate::events::Talk;
use crate::stages::{Stage, finished, take_line};
use desc_text::Partial;
use std::alloc::Global;
use text_lines::{LineRefused, TextFault, TextRefused, lines};

fn read(alloc: Global, text: &[u8]) -> Result<Talk, TextRefused>
    ensures { GivesText result (run_of take_talk_line talk_finished 1 stage_at_start (lines text.now)) }
{
    let Ok(lines) = lines(alloc, text) else {
        return Err(TextRefused::OutOfMemory);
    };
    let mut stage = Stage::Block(Partial::new(alloc));
    let mut number: u32 = 1;
    for line in &lines {
        match take_line(alloc, stage, line) {
            Ok(next) => {
                stage = next;
                number = number.saturating_add(1);
            }
            Err(LineRefused::Why(why)) => {
                return Err(TextRefused::Fault(TextFault { line: number, why }));
            }
            Err(LineRefused::OutOfMemory) => return Err(TextRefused::OutOfMemory),
        }
    }
    match finished(stage) {
        Ok(talk) => Ok(talk),
        Err(why) => Err(TextRefused::Fault(TextFault { line: number, why })),
    }
}

/// The talk that a text is, or its first fault: that of the description's reader where the block is
/// refused, at the line `begin` where the block is refused as it closes, that of the reader of messages
/// where a line is no message, `Words` where a word follows `begin` or `turn`, and `Missing` at the end
/// of the text where no line `begin` came.
pub fn read_talk(alloc: Global, text: &[u8]) -> Result<Talk, TextRefused>
    ensures ok { IfOk result (λ t. IsTalk text.now t) }

    // The description that was read is in range.
    ensures range { IfOk result (λ t. IsDesc t.desc) }

    // What is a talk is read, unless memory runs out.
    ensures only { (t : Talk) → IsTalk text.now t → GivesText result (Ok t) }

    // Else the fault is the first line that is refused.
    ensures fault { IfErr result (λ e. IsFirstBad talk_why_at text.now e) }
{
    read(alloc, text)
}

/// The law of the grammar: each text is one talk, or has one first line that is refused.
pub fn talks_read_or_are_refused()
    ensures either { ReadsOrRefused IsTalk talk_why_at }
    ensures never_both { NeverReadsAndRefused IsTalk talk_why_at }
    ensures one_value { OneValue IsTalk }
    ensures one_fault { OneFault talk_why_at }
{}
