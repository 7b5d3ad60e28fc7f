//! How all conversations stand.

ghost use Rattle.std.specs.Prelude.{◌≡◌, ◌<◌, ◌≤◌, ◌+◌, ◌++◌, List, length, map, nat_lt, if◌then◌else◌, Some, None, vec_capacity};
ghost use Rattle.std.specs.List.{list_all, flat_map};
ghost use Rattle.dcp_types.specs.declared.limits.Limits.{Limits};
ghost use Rattle.master_spec.specs.Marks.{verdict_of};
ghost use Rattle.master_spec.specs.Course.{CourseTalk as Said, is_settled, has_passed, is_quiet, is_settled_as, is_passed_as};
ghost use Rattle.master_spec.specs.Course as course;
ghost use Rattle.master_core.specs.Each.{Each};
ghost use Rattle.master_core.specs.Columns.{column_in};
ghost use Rattle.master_core.specs.Talking.{TalkStandsAt, Now, slave_talked_to, values_kept, outputs_width};
ghost use Rattle.master_spec.specs.declared.setups.Slave.{Slave};

use crate::records::Talk;
use crate::rows::put_values;
use master_spec::{Report, Verdict};

fn is_settled_as(verdict: Verdict) -> bool
    ensures { result ≡ is_settled_as verdict }
{
    match verdict {
        Verdict::Going => false,
        Verdict::Passed => true,
        Verdict::Ended(_) => true,
    }
}

fn is_passed_as(verdict: Verdict) -> bool
    ensures { result ≡ is_passed_as verdict }
{
    match verdict {
        Verdict::Going => false,
        Verdict::Passed => true,
        Verdict::Ended(_) => false,
    }
}

/// The slave with the least number that has ended, and why; `rest` is the answer for those behind it.
fn failed_by(phase: u32, slave: u8, verdict: Verdict) -> Option<Report>
    ensures { (s : Slave) → s.id ≡ slave → result ≡ course.failed_by phase s verdict None }
{
    match verdict {
        Verdict::Going => None,
        Verdict::Passed => None,
        Verdict::Ended(cause) => Some(Report::Failed {
            slave,
            phase,
            cause,
        }),
    }
}

impl Talk {
    /// It has passed or ended.
    fn is_settled(&self) -> bool
        ensures { (limits : Limits) (now : Now) (talk : Said) → TalkStandsAt limits now self.now talk → result ≡ is_settled talk }
    {
        is_settled_as(self.conversation.verdict())
    }

    fn has_passed(&self) -> bool
        ensures { (limits : Limits) (now : Now) (talk : Said) → TalkStandsAt limits now self.now talk → result ≡ has_passed talk }
    {
        is_passed_as(self.conversation.verdict())
    }

    /// It has ended, or has passed with no request open.
    fn is_quiet(&self) -> bool
        ensures { (limits : Limits) (now : Now) (talk : Said) → TalkStandsAt limits now self.now talk → result ≡ is_quiet talk }
    {
        self.is_settled() && !(self.has_passed() && self.conversation.waits_for_answer())
    }

    /// The report, where it has ended.
    fn failed(&self, phase: u32) -> Option<Report>
        ensures { (limits : Limits) (now : Now) (talk : Said) → TalkStandsAt limits now self.now talk → result ≡ course.failed_by phase talk.slave (verdict_of talk.marks) None }
    {
        failed_by(phase, self.slave.id, self.conversation.verdict())
    }
}

/// None is going.
pub(crate) fn are_settled(talks: &[Talk]) -> bool
    ensures { (limits : Limits) (now : Now) (said : List Said) → Each (TalkStandsAt limits now) talks.now said → result ≡ list_all is_settled said }
{
    for talk in talks {
        if !talk.is_settled() {
            return false;
        }
    }
    true
}

/// None is going, and none that passed waits for an answer.
pub(crate) fn are_quiet(talks: &[Talk]) -> bool
    ensures { (limits : Limits) (now : Now) (said : List Said) → Each (TalkStandsAt limits now) talks.now said → result ≡ list_all is_quiet said }
{
    for talk in talks {
        if !talk.is_quiet() {
            return false;
        }
    }
    true
}

pub(crate) fn have_passed(talks: &[Talk]) -> bool
    ensures { (limits : Limits) (now : Now) (said : List Said) → Each (TalkStandsAt limits now) talks.now said → result ≡ list_all has_passed said }
{
    for talk in talks {
        if !talk.has_passed() {
            return false;
        }
    }
    true
}

/// The report of the first that has ended, if one has.
pub(crate) fn first_failed(talks: &[Talk], phase: u32) -> Option<Report>
    ensures { (limits : Limits) (now : Now) (said : List Said) → Each (TalkStandsAt limits now) talks.now said → result ≡ course.failed phase said }
{
    for talk in talks {
        if let Some(report) = talk.failed(phase) {
            return Some(report);
        }
    }
    None
}

/// The outputs of all slaves are put behind the others, by slave and then by port.
pub(crate) fn put_row(talks: &[Talk], values: &mut Vec<i128>)
    ensures items { length values.old.items + outputs_width talks.now ≤ vec_capacity values.old → values.new.items ≡ values.old.items ++ flat_map values_kept talks.now }
    ensures room { vec_capacity values.new ≡ vec_capacity values.old }
{
    for talk in talks {
        put_values(talk.slave.types.as_slice(), &talk.outputs, values);
    }
}

/// How many outputs these slaves have.
pub(crate) fn width_of(talks: &[Talk]) -> usize
    requires { length talks.now ≤ 16 }
    ensures width { result ≡ outputs_width talks.now }
    ensures few { result ≤ 128 }
{
    let mut width = 0;
    for talk in talks {
        width += talk.slave.types.as_slice().len();
    }
    width
}

/// Where the value of a port stands in a row; none where there is no such slave or port.
pub(crate) fn column(talks: &[Talk], slave: u8, port: u8) -> Option<usize>
    requires { length talks.now ≤ 16 }
    ensures { result ≡ column_in (map slave_talked_to talks.now) slave port }
{
    let mut first = 0;
    for talk in talks {
        let count = talk.slave.types.as_slice().len();
        if talk.slave.id == slave {
            return place_in(first, count, usize::from(port));
        }
        first += count;
    }
    None
}

/// The place of a port behind the first, where there are so many.
fn place_in(first: usize, count: usize, port: usize) -> Option<usize>
    requires { first + count ≤ 128 }
    ensures value { result ≡ (if nat_lt port count then Some (first + port) else None) }
{
    if port < count {
        Some(first + port)
    } else {
        None
    }
}
