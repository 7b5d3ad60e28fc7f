//! Conversations, event by event.

use conversation::{Conversation, Task, hear};
use dcp_types::Limits;
use std::alloc::Global;
use std::process::Abort;
use std::test::Fail;

/// All outputs of the slave have so many bytes.
const SIZE: usize = 4;

/// Small limits, so that scripts are short.
const SMALL: Limits = Limits {
    turn_limit: 5,
    tries: 2,
    watch_turns: 3,
    state_limit: 4,
    retry_turns: 2,
    data_turns: 3,
    step_tries: 2,
};

/// Limits with more tries, each of many turns.
const LONG: Limits = Limits {
    turn_limit: 50,
    tries: 3,
    watch_turns: 20,
    state_limit: 200,
    retry_turns: 20,
    data_turns: 20,
    step_tries: 3,
};

/// Scripts, with an empty line between two. The first line has the limits, and what the script is about.
/// Then each event has a line, with all that is due at it: the begin of a task, a number of turns with
/// a slave going, or a datagram of the slave, where `+` tells that it brought the outputs. `?` asks for
/// the verdict, and whether an answer is awaited.
pub const SCRIPTS: &str = "\
small|a step is refused twice for want of inputs
begin:Step|070000010b01000000
b100000100000800
turns:1
turns:1|070100010b01000000
b101000100000800
turns:9
?|Ended(InputsMissing { seq: 1, step: 4 })|false

small|the outputs of row 70,000 are numbered 4,464, and others come, and too few bytes
begin:Outputs|080000010d
b0000001
e0010b|80010001
b20100010b
f06f11010001020304
f07011020001020304
f070110100010203
turns:2
?|Going|false
turns:1
?|Ended(DataMissing { step: 4 })|false

small|the outputs come first, and a beat finds another state
begin:Outputs|080000010d
f07011010001020304|+
f07011010005020304
b0000001
e0010b|80010001
b20100010b
turns:2
?|Passed|false
turns:1|80020001
b20200010a
?|Ended(Unexpected { seq: 2, type_id: 178, state: 10 })|false

small|the outputs come last, and a beat is sent twice
begin:Outputs|080000010d
b0000001
e0010b|80010001
b20100010b
turns:2
f07011010001020304|+
turns:9|80020001|80020001
?|Passed|true

small|the state stays the passing one
begin:Configure|0400000103
b0000001
turns:3|80010001
b201000104
turns:3|80020001
?|Going|true
b202000104
?|Ended(Stuck { seq: 2, state: 4 })|false

small|the passing state, and then the target after a hint
begin:Configure|0400000103
b0000001
turns:3|80010001
b201000104
turns:2
e00105|80020001
b202000105
?|Passed|false

small|a hint before the acknowledgement, and an error state with its fault
begin:Run|06000001050000000000000000
e0010b
b0000001|80010001
b201000111|81020001
b30200012100
?|Ended(Faulted { seq: 2, code: 33 })|false

small|an answer to something else
begin:Register|010000010000000000000000000000000000000001020100
b200000101
?|Ended(Unexpected { seq: 0, type_id: 178, state: 1 })|false

small|the preparing is refused
begin:Prepare|0300000101
b100000100000800
?|Ended(Refused { seq: 0, code: 8 })|false

small|after the deregistration there are no beats
begin:Deregister|0200000110
b0000001
turns:9
?|Passed|false

small|an empty list passes at once, and then there are beats
begin:Adjust
?|Passed|false
turns:2
turns:1|80000001
?|Passed|true

small|after the end of the last try nothing counts
begin:Register|010000010000000000000000000000000000000001020100
turns:4
turns:1|010000010000000000000000000000000000000001020100
turns:4
?|Going|true
turns:1
?|Ended(NoAnswer { seq: 0 })|true
turns:9
b0000001
?|Ended(NoAnswer { seq: 0 })|false

long|a request without an answer is due as often as it is tried
begin:Register|010000010000000000000000000000000000000001020100
?|Going|true
turns:49
?|Going|true
turns:1|010000010000000000000000000000000000000001020100
?|Going|true
turns:49
?|Going|true
turns:1|010000010000000000000000000000000000000001020100
?|Going|true
turns:49
?|Going|true
turns:1
?|Ended(NoAnswer { seq: 0 })|true";

/// The task with this name.
fn task_of(word: &str) -> Task {
    match word {
        "Register" => Task::Register { uuid: 1 },
        "Prepare" => Task::Prepare,
        "Configure" => Task::Configure,
        "Run" => Task::Run,
        "Step" => Task::Step { k: 4 },
        "Outputs" => Task::Outputs { k: 4, row: 70_000 },
        "Deregister" => Task::Deregister,
        _ => Task::Adjust,
    }
}

/// Appends what is due.
fn tell(alloc: Global, told: &mut String, talk: &Conversation) -> Result<(), Fail> {
    if let Some(bytes) = talk.due() {
        let digits = hex::encode(alloc, bytes)?;
        write!(told, "|{digits}")?;
    }
    Ok(())
}

/// Appends what is due in so many turns with a slave going.
fn tell_turns(
    alloc: Global,
    told: &mut String,
    talk: &mut Conversation,
    count: u32,
) -> Result<(), Fail> {
    for _ in 0..count {
        talk.clear_due();
        talk.on_turn(false);
        tell(alloc, told, talk)?;
    }
    Ok(())
}

/// Appends what comes of the datagram with these digits.
fn tell_gram(
    alloc: Global,
    told: &mut String,
    talk: &mut Conversation,
    digits: &str,
) -> Result<(), Fail> {
    let bytes = hex::decode(alloc, digits)?;
    talk.clear_due();
    if hear(talk, SIZE, &[], &bytes).is_some() {
        told.push_str("|+")?;
    }
    tell(alloc, told, talk)
}

/// Appends what is due at the begin of a task.
fn tell_begin(
    alloc: Global,
    told: &mut String,
    talk: &mut Conversation,
    task: Task,
) -> Result<(), Fail> {
    talk.clear_due();
    talk.begin(task, &[]);
    tell(alloc, told, talk)
}

/// Appends how the conversation stands.
fn tell_standing(told: &mut String, talk: &Conversation) -> Result<(), Fail> {
    let waits = talk.waits_for_answer();
    write!(told, "|{:?}|{waits}", talk.verdict())?;
    Ok(())
}

/// Appends what comes of an event.
fn tell_event(
    alloc: Global,
    told: &mut String,
    talk: &mut Conversation,
    event: &str,
) -> Result<(), Fail> {
    let (word, rest) = event.split_once(':').unwrap_or((event, ""));
    match word {
        "?" => tell_standing(told, talk),
        "begin" => tell_begin(alloc, told, talk, task_of(rest)),
        "turns" => tell_turns(alloc, told, talk, rest.parse().unwrap_or(0)),
        _ => tell_gram(alloc, told, talk, word),
    }
}

/// A conversation under small limits or long ones.
fn talk_of(limits: &str) -> Conversation {
    if limits == "long" {
        Conversation::new(1, LONG)
    } else {
        Conversation::new(1, SMALL)
    }
}

/// Appends the events of a script, played under these limits.
pub fn tell_script(
    alloc: Global,
    told: &mut String,
    limits: &str,
    events: &str,
) -> Result<(), Fail> {
    let mut talk = talk_of(limits);
    for line in events.lines() {
        let (event, _) = line.split_once('|').unwrap_or((line, ""));
        write!(told, "\n{event}")?;
        tell_event(alloc, told, &mut talk, event)?;
    }
    Ok(())
}
