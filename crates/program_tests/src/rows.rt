//! The worked rows of each command, over objects in memory.

use crate::tables::{bytes_of, numbers_of};
use commands::{Status, Words, run_words};
use dcp_io::{MemorySink, MemorySource};
use net_world::MemoryNet;
use std::alloc::Global;
use std::process::Abort;
use std::test::Fail;

/// One call of the program over objects in memory, and what must come of it.
#[derive(Clone, Copy)]
struct Row<'a> {
    words: &'a str,
    input: &'a str,
    /// The number of the status.
    status: &'a str,
    /// What is written.
    out: &'a str,
    /// The numbers of the reads that fail.
    failing_reads: &'a str,
    /// The numbers of the writes that fail.
    failing_writes: &'a str,
    /// How many bytes the sink takes; empty for as many as are written.
    room: &'a str,
}

/// The row of a line, whose cells stand between bars. Cells that are left out are empty.
fn row_of(line: &str) -> Row<'_> {
    let mut cells = line.split('|');
    Row {
        words: cells.next().unwrap_or(""),
        input: cells.next().unwrap_or(""),
        status: cells.next().unwrap_or(""),
        out: cells.next().unwrap_or(""),
        failing_reads: cells.next().unwrap_or(""),
        failing_writes: cells.next().unwrap_or(""),
        room: cells.next().unwrap_or(""),
    }
}

/// The status and what was written. Each read gives at most two bytes.
fn run(alloc: Global, row: &Row<'_>) -> Result<(Status, Vec<u8>), Fail> {
    let mut words = Words::new(alloc);
    for word in row.words.split_whitespace() {
        words.push(alloc, word)?;
    }
    let mut pieces = Vec::new(alloc);
    for _ in 0..1_000 {
        pieces.push(2)?;
    }
    let reads = numbers_of(alloc, row.failing_reads)?;
    let mut source = MemorySource::new(bytes_of(alloc, row.input)?, pieces, reads);
    let mut room = Vec::new(alloc);
    for _ in 0..row.room.parse::<usize>().unwrap_or(4_096) {
        room.push(0)?;
    }
    let mut out = MemorySink::new(room, numbers_of(alloc, row.failing_writes)?);
    let mut trace = MemorySink::new([0; 262_144].to_vec(alloc)?, Vec::new(alloc));
    let mut net = MemoryNet::new(alloc);
    let status = run_words(alloc, &words, &mut source, &mut out, &mut trace, &mut net);
    Ok((status, out.written().to_vec(alloc)?))
}

/// Runs each row of a table.
fn run_all(rt: &impl Abort, alloc: Global, table: &str) -> Result<(), Fail> {
    for line in table.lines() {
        let row = row_of(line);
        let (status, written) = run(alloc, &row)?;
        assert_eq!(rt;
            status.code(),
            row.status.parse::<u8>().unwrap_or(99),
            "{line}"
        );
        assert!(rt; written == bytes_of(alloc, row.out)?, "{line}");
    }
    Ok(())
}

/// Words that name no command: `usage`, or what of it there is room for.
const NO_COMMANDS: &str = "\
|slave count/|1|usage/
run now|slave count/|1|usage/
soak||1|usage/
soak +5||1|usage/
soak 1234567||1|usage/
soak 5 5||1|usage/
soak 0x1||1|usage/
conform||1|usage/
conform 9x||1|usage/
conform a b||1|usage/
5 soak||1|usage/
--help|slave count/|1|usage/
decode decode|slave count/|1|usage/
Decode|slave count/|1|usage/
decodes|slave count/|1|usage/
-|slave count/|1|usage/
-decode|slave count/|1|usage/
||1|usa|||3";

/// Messages, and bytes that are none, with each cut of three messages.
const DECODED: &str = "\
decode|#b0020001|0|RSP_ack resp_seq_id=2 sender=1/
decode|#0302000101|0|STC_prepare pdu_seq_id=2 receiver=1 state_id=CONFIGURATION/
decode|#80110002|0|INF_state pdu_seq_id=17 receiver=2/
decode|#|2|input: byte 0 EMPTY/
decode|#030200010100|2|input: byte 5 LONG/
decode|#0302000113|2|input: byte 4 BAD_STATE/
decode|#073412020b010000|2|input: byte 8 SHORT/
decode|#00|2|input: byte 0 UNKNOWN_TYPE/
decode|#b0|2|input: byte 1 SHORT/
decode|#b002|2|input: byte 2 SHORT/
decode|#b00200|2|input: byte 3 SHORT/
decode|#80|2|input: byte 1 SHORT/
decode|#8011|2|input: byte 2 SHORT/
decode|#801100|2|input: byte 3 SHORT/
decode|#03|2|input: byte 1 SHORT/
decode|#0302|2|input: byte 2 SHORT/
decode|#030200|2|input: byte 3 SHORT/
decode|#03020001|2|input: byte 4 SHORT/";

/// Lines of messages, and lines that are none.
const ENCODED: &str = "\
encode|RSP_ack resp_seq_id=2 sender=1/|0|#b0020001
encode|STC_register pdu_seq_id=0 receiver=1 state_id=ALIVE slave_uuid=00000000-0000-0000-0000-000000000001 op_mode=2 major_version=1 minor_version=0|0|#010000010000000000000000000000000000000001020100
encode|STC_reset pdu_seq_id=65536 receiver=1 state_id=ALIVE|2|input: line 1 LIMIT/
encode|RSP_ack resp_seq_id=2|2|input: line 1 WORDS/";

/// Descriptions.
const DESCRIBED: &str = "\
describe|slave count/uuid 00000000-0000-0000-0000-000000000001/address 127.0.0.1 9001/model counter 1000/output 1 uint32/|0|slave count/uuid 00000000-0000-0000-0000-000000000001/address 127.0.0.1 9001/model counter 1000/busy 0/heartbeat 0/resolution 1 1000/output 1 uint32/
describe||2|input: line 1 MISSING/
describe|slave 7/|2|input: line 1 BAD_NAME/";

/// Scenarios: a chain of gains, an initial output outside its type, a slave without an identity, and a
/// second run in which a divider meets zero.
const REFERENCES: &str = "\
reference|steps 2/master 127.0.0.1 9000/slave src/uuid 00000000-0000-0000-0000-000000000001/address 127.0.0.1 9001/model const 3/output 1 int32/slave amp/uuid 00000000-0000-0000-0000-000000000002/address 127.0.0.1 9002/model gain 131072/input 1 int32/output 2 int32/slave top/uuid 00000000-0000-0000-0000-000000000003/address 127.0.0.1 9003/model gain 65536/input 1 int32/output 2 int32/wire src 0 amp 0/wire amp 0 top 0/|0|0 3 0 0/1 3 6 0/2 3 6 6/finished 2/
reference|steps 3/master 127.0.0.1 9000/slave count/uuid 00000000-0000-0000-0000-000000000001/address 127.0.0.1 9001/model const 300/output 1 uint8/|0|fault slave 1 step 0 code 34/
reference|steps 3/master 127.0.0.1 9000/slave count/address 127.0.0.1 9001/model counter 1000/output 1 uint32/|2|input: line 7 MISSING/";

/// A scenario of two runs, in the second of which a divider meets zero.
const TWO_RUNS: &str =
    "steps 3/runs 2/master 127.0.0.1 9000/slave fall/uuid 00000000-0000-0000-0000-000000000001/address 127.0.0.1 9001/model ramp 3 -1/output 1 int32/slave da/uuid 00000000-0000-0000-0000-000000000002/address 127.0.0.1 9002/model divider 12/input 1 int32/output 2 int32/slave db/uuid 00000000-0000-0000-0000-000000000003/address 127.0.0.1 9003/model divider -7/input 1 int32/output 2 int32/wire fall 0 da 0/wire fall 0 db 0/rerun_set 2 fall 0 1/";

/// Talks with one slave: one that is set up and reads its log, and two that do not begin.
const TALKS: &str = "\
talk|slave count/uuid 00000000-0000-0000-0000-000000000001/address 127.0.0.1 9001/model counter 1000/output 1 uint32/begin/STC_register pdu_seq_id=0 receiver=1 state_id=ALIVE slave_uuid=00000000-0000-0000-0000-000000000001 op_mode=2 major_version=1 minor_version=0/CFG_logging pdu_seq_id=1 receiver=1 category=1 level=2 mode=0/CFG_time_res pdu_seq_id=2 receiver=1 numerator=1 denominator=1000/STC_prepare pdu_seq_id=3 receiver=1 state_id=CONFIGURATION/turn/INF_log pdu_seq_id=4 receiver=1 category=1 max_entries=9/INF_log pdu_seq_id=4 receiver=1 category=1 max_entries=9/INF_log pdu_seq_id=5 receiver=1 category=1 max_entries=9/|0|RSP_ack resp_seq_id=0 sender=1/RSP_ack resp_seq_id=1 sender=1/RSP_ack resp_seq_id=2 sender=1/RSP_ack resp_seq_id=3 sender=1/NTF_state_changed sender=1 state_id=PREPARED/RSP_log_ack resp_seq_id=4 sender=1 entries=0000000001020300000000/RSP_log_ack resp_seq_id=4 sender=1 entries=0000000001020300000000/RSP_log_ack resp_seq_id=5 sender=1 entries=/
talk|slave count/uuid 00000000-0000-0000-0000-000000000001/address 127.0.0.1 9001/model counter 1000/output 1 uint32/begin now/|2|input: line 6 WORDS/
talk|slave count/uuid 00000000-0000-0000-0000-000000000001/address 127.0.0.1 9001/model counter 1000/output 1 uint32/|2|input: line 6 MISSING/";

/// Runs over a network in memory: whole ones, with messages that come twice, late or not at all; runs that
/// fail for each cause that a network can bring about; intervals, and several runs of one registration.
const RUNS: &str = "\
run|steps 3/master 127.0.0.1 9000/slave count/uuid 00000000-0000-0000-0000-000000000001/address 127.0.0.1 9001/model counter 1000/output 1 uint32/|0|0 0/1 1/2 2/3 3/finished 3/
run|steps 0/master 127.0.0.1 9000/slave count/uuid 00000000-0000-0000-0000-000000000001/address 127.0.0.1 9001/model counter 1000/output 1 uint32/|0|0 0/finished 0/
run|steps 5/master 127.0.0.1 9000/slave amp/uuid 00000000-0000-0000-0000-000000000001/address 127.0.0.1 9001/model gain 131072/input 1 int32/output 2 int32/slave acc/uuid 00000000-0000-0000-0000-000000000002/address 127.0.0.1 9002/model integrator 10 32768/input 1 int32/output 2 int32/wire amp 0 acc 0/wire acc 0 amp 0/|0|0 0 10/1 20 10/2 20 20/3 40 30/4 60 50/5 100 80/finished 5/
run|steps 5/master 127.0.0.1 9000/slave amp/uuid 00000000-0000-0000-0000-000000000001/address 127.0.0.1 9001/model gain 131072/input 1 int32/output 2 int32/slave acc/uuid 00000000-0000-0000-0000-000000000002/address 127.0.0.1 9002/model integrator 10 32768/input 1 int32/output 2 int32/wire amp 0 acc 0/wire acc 0 amp 0/chaos 1 0 1000 0/|0|0 0 10/1 20 10/2 20 20/3 40 30/4 60 50/5 100 80/finished 5/
run|steps 5/master 127.0.0.1 9000/slave amp/uuid 00000000-0000-0000-0000-000000000001/address 127.0.0.1 9001/model gain 131072/input 1 int32/output 2 int32/slave acc/uuid 00000000-0000-0000-0000-000000000002/address 127.0.0.1 9002/model integrator 10 32768/input 1 int32/output 2 int32/wire amp 0 acc 0/wire acc 0 amp 0/copy 1 e0 6 20/|0|0 0 10/1 20 10/2 20 20/3 40 30/4 60 50/5 100 80/finished 5/
run|steps 5/master 127.0.0.1 9000/slave amp/uuid 00000000-0000-0000-0000-000000000001/address 127.0.0.1 9001/model gain 131072/input 1 int32/output 2 int32/slave acc/uuid 00000000-0000-0000-0000-000000000002/address 127.0.0.1 9002/model integrator 10 32768/input 1 int32/output 2 int32/wire amp 0 acc 0/wire acc 0 amp 0/drop 1 f0 4/|3|0 0 10/1 20 10/failed slave 2 phase 10 InputsMissing seq 26 step 2/
run|steps 5/master 127.0.0.1 9000/slave amp/uuid 00000000-0000-0000-0000-000000000001/address 127.0.0.1 9001/model gain 131072/input 1 int32/output 2 int32/slave acc/uuid 00000000-0000-0000-0000-000000000002/address 127.0.0.1 9002/model integrator 10 32768/input 1 int32/output 2 int32/wire amp 0 acc 0/wire acc 0 amp 0/drop 1 f0 3/|3|0 0 10/failed slave 1 phase 9 DataMissing step 1/
run|tries 3/steps 3/master 127.0.0.1 9000/slave count/uuid 00000000-0000-0000-0000-000000000001/address 127.0.0.1 9001/model counter 1000/output 1 uint32/drop 1 b0 0/|3|failed slave 1 phase 1 NoAnswer seq 0/
run|steps 6/master 127.0.0.1 9000/slave fall/uuid 00000000-0000-0000-0000-000000000001/address 127.0.0.1 9001/model ramp 3 -1/output 1 int32/slave da/uuid 00000000-0000-0000-0000-000000000002/address 127.0.0.1 9002/model divider 12/input 1 int32/output 2 int32/slave db/uuid 00000000-0000-0000-0000-000000000003/address 127.0.0.1 9003/model divider -7/input 1 int32/output 2 int32/wire fall 0 da 0/wire fall 0 db 0/|3|0 3 0 0/1 2 262144 -152918/2 1 393216 -229376/3 0 786432 -458752/failed slave 2 phase 14 Faulted seq 32 code 33/
run|steps 3/master 127.0.0.1 9000/slave count/uuid 00000000-0000-0000-0000-000000000001/address 127.0.0.1 9001/model counter 1000/output 1 uint32/drop 1 b0 11/|0|0 0/1 1/2 2/3 3/finished 3/
run|steps 3/master 127.0.0.1 9000/slave count/uuid 00000000-0000-0000-0000-000000000001/address 127.0.0.1 9001/model const 300/output 1 uint8/|3|failed slave 1 phase 5 Faulted seq 12 code 34/
run|state_limit 4/steps 3/master 127.0.0.1 9000/slave count/uuid 00000000-0000-0000-0000-000000000001/address 127.0.0.1 9001/model counter 1000/busy 50/output 1 uint32/|3|0 0/failed slave 1 phase 8 Stuck seq 17 state 12/
run|steps 3/master 127.0.0.1 9000/slave count/uuid 00000000-0000-0000-0000-000000000001/address 127.0.0.1 9001/model counter 1000/busy 50/output 1 uint32/|0|0 0/1 1/2 2/3 3/finished 3/
run|steps 5/master 127.0.0.1 9000/slave amp/uuid 00000000-0000-0000-0000-000000000001/address 127.0.0.1 9001/model gain 131072/input 1 int32/output 2 int32/slave acc/uuid 00000000-0000-0000-0000-000000000002/address 127.0.0.1 9002/model integrator 10 32768/input 1 int32/output 2 int32/wire amp 0 acc 0/wire acc 0 amp 0/every amp acc 2/|0|0 0 10/1 20 10/2 20 10/3 20 20/4 40 30/5 60 50/finished 5/
run|steps 5/master 127.0.0.1 9000/slave amp/uuid 00000000-0000-0000-0000-000000000001/address 127.0.0.1 9001/model gain 131072/input 1 int32/output 2 int32/slave acc/uuid 00000000-0000-0000-0000-000000000002/address 127.0.0.1 9002/model integrator 10 32768/input 1 int32/output 2 int32/wire amp 0 acc 0/wire acc 0 amp 0/every amp acc 2/drop 1 f0 5/|3|0 0 10/1 20 10/2 20 10/failed slave 2 phase 12 InputsMissing seq 31 step 3/
run|runs 2/steps 3/master 127.0.0.1 9000/slave count/uuid 00000000-0000-0000-0000-000000000001/address 127.0.0.1 9001/model counter 1000/output 1 uint32/rerun_set 2 count 0 2/|0|0 0/1 1/2 2/3 3/4 0/5 1/6 0/7 1/finished 3/
run|runs 2/steps 3/master 127.0.0.1 9000/slave count/uuid 00000000-0000-0000-0000-000000000001/address 127.0.0.1 9001/model ramp 0 1/output 1 uint32/rerun_set 2 count 0 100/copy 1 f0 1 69/|0|0 0/1 1/2 2/3 3/4 100/5 101/6 102/7 103/finished 3/
run|runs 2/steps 3/master 127.0.0.1 9000/slave fall/uuid 00000000-0000-0000-0000-000000000001/address 127.0.0.1 9001/model ramp 3 -1/output 1 int32/slave da/uuid 00000000-0000-0000-0000-000000000002/address 127.0.0.1 9002/model divider 12/input 1 int32/output 2 int32/slave db/uuid 00000000-0000-0000-0000-000000000003/address 127.0.0.1 9003/model divider -7/input 1 int32/output 2 int32/wire fall 0 da 0/wire fall 0 db 0/rerun_set 2 fall 0 1/|3|0 3 0 0/1 2 262144 -152918/2 1 393216 -229376/3 0 786432 -458752/4 1 0 0/5 0 786432 -458752/failed slave 2 phase 24 Faulted seq 50 code 33/";

/// Scenarios that are made by their number; the input is not read.
const SOAKS: &str = "\
soak 0||0|soak 0 slaves 2 steps 200 finished 200/sum 20100/
soak 000||0|soak 0 slaves 2 steps 200 finished 200/sum 20100/|1
soak 1|slave count/|0|soak 1 slaves 3 steps 201 finished 201/sum 40401/
soak 7||0|soak 7 slaves 9 steps 207 finished 207/sum 82650/
soak 15||0|soak 15 slaves 2 steps 215 finished 215/sum 23220/
soak 0||5||||0";

/// Reads and writes that fail, and sinks with little room.
const FAULTS: &str = "\
describe|slave count/uuid 00000000-0000-0000-0000-000000000001/address 127.0.0.1 9001/model counter 1000/output 1 uint32/|4||2
describe|slave count/uuid 00000000-0000-0000-0000-000000000001/address 127.0.0.1 9001/model counter 1000/output 1 uint32/|5|||1
describe|slave count/uuid 00000000-0000-0000-0000-000000000001/address 127.0.0.1 9001/model counter 1000/output 1 uint32/|5|slave|||5
describe|slave count/uuid 00000000-0000-0000-0000-000000000001/address 127.0.0.1 9001/model counter 1000/output 1 uint32/|5||||0
describe||2|input|||5
decode|#b0020001|4||2
decode|#b0020001|5||||0";

#[test]
fn words_that_name_no_command_are_usage(rt: HostRuntime) -> Result<(), Fail> {
    run_all(&rt, rt.alloc(), NO_COMMANDS)
}

#[test]
fn soak_writes_the_report_and_the_sum_of_the_rows(rt: HostRuntime) -> Result<(), Fail> {
    run_all(&rt, rt.alloc(), SOAKS)
}

#[test]
fn decode_writes_the_line_or_where_the_bytes_are_refused(rt: HostRuntime) -> Result<(), Fail> {
    run_all(&rt, rt.alloc(), DECODED)
}

#[test]
fn encode_writes_the_bytes_or_the_first_broken_rule(rt: HostRuntime) -> Result<(), Fail> {
    run_all(&rt, rt.alloc(), ENCODED)
}

#[test]
fn describe_writes_the_canonical_text_or_the_first_refused_line(
    rt: HostRuntime,
) -> Result<(), Fail> {
    run_all(&rt, rt.alloc(), DESCRIBED)
}

#[test]
fn reference_writes_the_rows_and_the_line_after_them(rt: HostRuntime) -> Result<(), Fail> {
    run_all(&rt, rt.alloc(), REFERENCES)?;
    let two_runs = Row {
        words: "reference",
        input: TWO_RUNS,
        ..row_of("")
    };
    let (status, written) = run(rt.alloc(), &two_runs)?;
    assert_eq!(rt; status, Status::Done);
    assert!(rt;
        written
            .as_slice()
            .ends_with(b"fault slave 2 step 2 code 33 run 2\n".as_slice())
    );
    Ok(())
}

#[test]
fn talk_writes_what_the_slave_says_or_the_first_refused_line(rt: HostRuntime) -> Result<(), Fail> {
    run_all(&rt, rt.alloc(), TALKS)
}

#[test]
fn run_writes_the_rows_and_the_report(rt: HostRuntime) -> Result<(), Fail> {
    run_all(&rt, rt.alloc(), RUNS)
}

#[test]
fn faults_of_the_objects_decide_the_status(rt: HostRuntime) -> Result<(), Fail> {
    run_all(&rt, rt.alloc(), FAULTS)
}
