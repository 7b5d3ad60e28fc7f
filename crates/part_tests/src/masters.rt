//! The plan and the master, event by event.

ghost use Rattle.std.specs.Prelude.{◌≡◌};
ghost use Rattle.master_spec.specs.Plans.{plan_of};
ghost use Rattle.scenario.specs.Sound.{IsScenario};

use crate::plans;
use crate::scenarios::scenario_of;
use config_plan::{Plan, plan};
use dcp_ends::End;
use dcp_types::Address;
use master_core::MasterCore;
use scenario::Scenario;
use std::alloc::Global;
use std::test::Fail;

/// Scripts, with an empty line between two. The first line has the scenario, and what the script is
/// about. Then each event has a line, with all that the master sends at it: a number of turns, or the
/// port of a sender and its datagram. `?` asks for the master's port, the report, whether the master is
/// over, the number of its turns and that of its rows, and `row` for the value of a row, a slave and a
/// port. Of the plan, `setup` asks for the requests of a slave's setup, the first with the number 2;
/// `adjust` for those between the first run and the second, the first with the number 0; and `links` for
/// each data id with the sender, the receiver and the interval in steps.
pub const SCRIPTS: &str = "\
$|the plan of one slave
setup:1|24020001|2003000101000000e8030000|23040001010000000100000000000000|2505000101000028230100007f
links|1 1 0 1

$set count 0 7;|a setting
setup:1|24020001|2003000101000000e8030000|270400010000000000000000070700000000000000|23050001010000000100000000000000|2506000101000028230100007f

&|the plan of two slaves
setup:1|24020001|2003000101000000e8030000|2204000112000000010000000000000006|260500011200002a230100007f|23060001110000000200000000000000|250700011100002a230100007f|23080001010000000200000000000000|2509000101000028230100007f
setup:2|24020002|2003000201000000e8030000|2204000211000000010000000000000006|2605000211000029230100007f|23060002120000000200000000000000|2507000212000029230100007f|23080002020000000200000000000000|2509000202000028230100007f
links|1 1 0 1|2 2 0 1|17 1 2 1|18 2 1 1

&every amp acc 2;|an interval
setup:1|24020001|2003000101000000e8030000|2204000112000000010000000000000006|260500011200002a230100007f|23060001110000000200000000000000|250700011100002a230100007f|21080001110002000000|23090001010000000200000000000000|250a000101000028230100007f
setup:2|24020002|2003000201000000e8030000|2204000211000000010000000000000006|2605000211000029230100007f|21060002110002000000|23070002120000000200000000000000|2508000212000029230100007f|23090002020000000200000000000000|250a000202000028230100007f
links|1 1 0 1|2 2 0 1|17 1 2 2|18 2 1 1

protocol tcp;&|another protocol
setup:2|24020002|2003000201000000e8030000|2204000211000000010000000000000006|2605000211000429230100007f|23060002120000000200000000000000|2507000212000429230100007f|23080002020000000200000000000000|2509000202000428230100007f

%|the plan of three slaves
setup:2|24020002|2003000201000000e8030000|2204000211000000010000000000000006|2605000211000029230100007f|23060002020000000200000000000000|2507000202000028230100007f
links|1 1 0 1|2 2 0 1|3 3 0 1|17 1 2 1|18 1 3 1

runs 2;$rerun_set 2 count 0 2;|a setting between two runs
adjust:1|270000010000000000000000070200000000000000

steps 0;master 127.0.0.1 9000;slave count;uuid 00000000-0000-0000-0000-000000000001;address 127.0.0.1 9001;model counter 1000;output 1 uint32;|a run without a step, in which no state is hinted
turns:1|9001:010000010000000000000000000000000000000001020100
9001:b0000001|9001:80010001
9001:b201000101
turns:1|9001:24020001
9001:b0020001|9001:2003000101000000e8030000
9001:b0030001|9001:23040001010000000100000000000000
9001:b0040001|9001:2505000101000028230100007f
9001:b0050001
turns:1|9001:0306000101
9001:b0060001
turns:20|9001:80070001
9001:b207000103
turns:1|9001:0408000103
9001:b0080001
turns:20|9001:80090001
9001:b209000105
turns:1|9001:050a000105
9001:b00a0001
turns:20|9001:800b0001
9001:b20b000107
turns:1|9001:080c000107
9001:b00c0001
turns:20|9001:800d0001
9001:f00000010001020304
9001:b20d000105
turns:1|9001:060e0001050000000000000000
9001:b00e0001
turns:20|9001:800f0001
9001:b20f00010b
turns:1|9001:091000010b
9001:b0100001
turns:20|9001:80110001
9001:b211000110
turns:1|9001:0212000110
9001:b0120001
turns:1
?|9000|Some(Finished { steps: 0 })|true|130|1
row:0 1 0|Some(67305985)
row:0 1 1|None
row:0 0 0|None
row:1 1 0|None

runs 2;steps 1;master 127.0.0.1 9000;slave count;uuid 00000000-0000-0000-0000-000000000001;address 127.0.0.1 9001;model counter 1000;output 1 uint32;rerun_set 2 count 0 2;|two runs of one step, in which each state is hinted
turns:1|9001:010000010000000000000000000000000000000001020100
9001:b0000001|9001:80010001
9001:b201000101
turns:1|9001:24020001
9001:b0020001|9001:2003000101000000e8030000
9001:b0030001|9001:23040001010000000100000000000000
9001:b0040001|9001:2505000101000028230100007f
9001:b0050001
turns:1|9001:0306000101
9001:b0060001
9001:e00103|9001:80070001
9001:b207000103
turns:1|9001:0408000103
9001:b0080001
9001:e00105|9001:80090001
9001:b209000105
turns:1|9001:050a000105
9001:b00a0001
9001:e00107|9001:800b0001
9001:b20b000107
turns:1|9001:080c000107
9001:b00c0001
9001:e00105|9001:800d0001
9001:f00000010000010080
9001:b20d000105
turns:1|9001:060e0001050000000000000000
9001:b00e0001
9001:e0010b|9001:800f0001
9001:b20f00010b
turns:1|9001:071000010b01000000
9001:b0100001
9001:e0010d|9001:80110001
9001:b21100010d
turns:1|9001:081200010d
9001:b0120001
9001:e0010b|9001:80130001
9001:f00100010001010081
9001:b21300010b
turns:1|9001:091400010b
9001:b0140001
9001:e00110|9001:80150001
9001:b215000110
turns:1|9001:0a16000110
9001:b0160001|9001:80170001
9001:b217000101
turns:1|9001:271800010000000000000000070200000000000000
9001:b0180001
turns:1|9001:0319000101
9001:b0190001
9001:e00103|9001:801a0001
9001:b21a000103
turns:1|9001:041b000103
9001:b01b0001
9001:e00105|9001:801c0001
9001:b21c000105
turns:1|9001:051d000105
9001:b01d0001
9001:e00107|9001:801e0001
9001:b21e000107
turns:1|9001:081f000107
9001:b01f0001
9001:e00105|9001:80200001
9001:f00200010002010082
9001:b220000105
turns:1|9001:06210001050000000000000000
9001:b0210001
9001:e0010b|9001:80220001
9001:b22200010b
turns:1|9001:072300010b01000000
9001:b0230001
9001:e0010d|9001:80240001
9001:b22400010d
turns:1|9001:082500010d
9001:b0250001
9001:e0010b|9001:80260001
9001:f00300010003010083
9001:b22600010b
turns:1|9001:092700010b
9001:b0270001
9001:e00110|9001:80280001
9001:b228000110
turns:1|9001:0229000110
9001:b0290001
turns:1
?|9000|Some(Finished { steps: 1 })|true|22|4
row:0 1 0|Some(2147483904)
row:1 1 0|Some(2164261121)
row:2 1 0|Some(2181038338)
row:3 1 0|Some(2197815555)

$|the registration is refused, and nothing happens after the report
turns:1|9001:010000010000000000000000000000000000000001020100
9001:b100000100000200
?|9000|None|false|1|0
turns:1
?|9000|Some(Failed { slave: 1, phase: 1, cause: Refused { seq: 0, code: 2 } })|true|2|0
turns:1
?|9000|Some(Failed { slave: 1, phase: 1, cause: Refused { seq: 0, code: 2 } })|true|2|0

$|no answer comes
turns:1|9001:010000010000000000000000000000000000000001020100
turns:49
turns:1|9001:010000010000000000000000000000000000000001020100
turns:49
turns:1|9001:010000010000000000000000000000000000000001020100
turns:49
turns:1|9001:010000010000000000000000000000000000000001020100
turns:49
?|9000|None|false|200|0
turns:1
?|9000|Some(Failed { slave: 1, phase: 1, cause: NoAnswer { seq: 0 } })|true|201|0
turns:1

retry_turns 7;step_tries 3;steps 1;master 127.0.0.1 9000;slave count;uuid 00000000-0000-0000-0000-000000000001;address 127.0.0.1 9001;model counter 1000;output 1 uint32;|a step is refused three times for want of inputs
turns:1|9001:010000010000000000000000000000000000000001020100
9001:b0000001|9001:80010001
9001:b201000101
turns:1|9001:24020001
9001:b0020001|9001:2003000101000000e8030000
9001:b0030001|9001:23040001010000000100000000000000
9001:b0040001|9001:2505000101000028230100007f
9001:b0050001
turns:1|9001:0306000101
9001:b0060001
9001:e00103|9001:80070001
9001:b207000103
turns:1|9001:0408000103
9001:b0080001
9001:e00105|9001:80090001
9001:b209000105
turns:1|9001:050a000105
9001:b00a0001
9001:e00107|9001:800b0001
9001:b20b000107
turns:1|9001:080c000107
9001:b00c0001
9001:e00105|9001:800d0001
9001:f00000010000030201
9001:b20d000105
turns:1|9001:060e0001050000000000000000
9001:b00e0001
9001:e0010b|9001:800f0001
9001:b20f00010b
turns:1|9001:071000010b01000000
9001:b110000100000800
turns:6
turns:1|9001:071100010b01000000
9001:b111000100000800
turns:6
turns:1|9001:071200010b01000000
9001:b112000100000800
?|9000|None|false|22|1
turns:1
?|9000|Some(Failed { slave: 1, phase: 8, cause: InputsMissing { seq: 18, step: 1 } })|true|23|1

data_turns 7;steps 1;master 127.0.0.1 9000;slave count;uuid 00000000-0000-0000-0000-000000000001;address 127.0.0.1 9001;model counter 1000;output 1 uint32;|the outputs of a step do not come, but others
turns:1|9001:010000010000000000000000000000000000000001020100
9001:b0000001|9001:80010001
9001:b201000101
turns:1|9001:24020001
9001:b0020001|9001:2003000101000000e8030000
9001:b0030001|9001:23040001010000000100000000000000
9001:b0040001|9001:2505000101000028230100007f
9001:b0050001
turns:1|9001:0306000101
9001:b0060001
9001:e00103|9001:80070001
9001:b207000103
turns:1|9001:0408000103
9001:b0080001
9001:e00105|9001:80090001
9001:b209000105
turns:1|9001:050a000105
9001:b00a0001
9001:e00107|9001:800b0001
9001:b20b000107
turns:1|9001:080c000107
9001:b00c0001
9001:e00105|9001:800d0001
9001:f00000010000030201
9001:b20d000105
turns:1|9001:060e0001050000000000000000
9001:b00e0001
9001:e0010b|9001:800f0001
9001:b20f00010b
turns:1|9001:071000010b01000000
9001:b0100001
9001:e0010d|9001:80110001
9001:b21100010d
turns:1|9001:081200010d
9001:b0120001
9001:e0010b|9001:80130001
9001:f00000010001020304
9001:f0010001000102030405
9001:f00100020001020304
9001:b21300010b
turns:6
?|9000|None|false|15|1
turns:1
?|9000|Some(Failed { slave: 1, phase: 9, cause: DataMissing { step: 1 } })|true|16|1
9001:f00100010001020304
?|9000|Some(Failed { slave: 1, phase: 9, cause: DataMissing { step: 1 } })|true|16|1

state_limit 50;steps 1;master 127.0.0.1 9000;slave count;uuid 00000000-0000-0000-0000-000000000001;address 127.0.0.1 9001;model counter 1000;output 1 uint32;|the state stays the passing one
turns:1|9001:010000010000000000000000000000000000000001020100
9001:b0000001|9001:80010001
9001:b201000101
turns:1|9001:24020001
9001:b0020001|9001:2003000101000000e8030000
9001:b0030001|9001:23040001010000000100000000000000
9001:b0040001|9001:2505000101000028230100007f
9001:b0050001
turns:1|9001:0306000101
9001:b0060001
9001:e00103|9001:80070001
9001:b207000103
turns:1|9001:0408000103
9001:b0080001
turns:20|9001:80090001
9001:b209000104
turns:20|9001:800a0001
9001:b20a000104
turns:9
9001:e00104|9001:800b0001
9001:b20b000104
turns:1
9001:e00104|9001:800c0001
?|9000|None|false|54|0
9001:b20c000104
?|9000|None|false|54|0
turns:1
?|9000|Some(Failed { slave: 1, phase: 4, cause: Stuck { seq: 12, state: 4 } })|true|55|0

steps 1;master 127.0.0.1 9000;slave count;uuid 00000000-0000-0000-0000-000000000001;address 127.0.0.1 9001;model counter 1000;output 1 uint32;|the slave tells its fault
turns:1|9001:010000010000000000000000000000000000000001020100
9001:b0000001|9001:80010001
9001:b201000101
turns:1|9001:24020001
9001:b0020001|9001:2003000101000000e8030000
9001:b0030001|9001:23040001010000000100000000000000
9001:b0040001|9001:2505000101000028230100007f
9001:b0050001
turns:1|9001:0306000101
9001:b0060001
9001:e00103|9001:80070001
9001:b207000103
turns:1|9001:0408000103
9001:b0080001
9001:e00105|9001:80090001
9001:b209000105
turns:1|9001:050a000105
9001:b00a0001
9001:e00111|9001:800b0001
9001:b20b000111|9001:810c0001
9001:b30c00012200
?|9000|None|false|5|0
turns:1
?|9000|Some(Failed { slave: 1, phase: 5, cause: Faulted { seq: 12, code: 34 } })|true|6|0

&|the second slave refuses, and the first one answers late; another id, another number, a stranger's datagram, and bytes that are no message change nothing
turns:1|9001:010000010000000000000000000000000000000001020100|9002:010000020000000000000000000000000000000002020100
9002:b0000001
9003:b0000001
9001:b0010001
9001:b00000
9002:b100000200000200
turns:1
9001:b0000001|9001:80010001
9001:b201000101
turns:1
9001:b201000101
turns:1
?|9000|Some(Failed { slave: 2, phase: 1, cause: Refused { seq: 0, code: 2 } })|true|3|0

&|both slaves end in one phase: the one is in another state, the other tells its fault
turns:1|9001:010000010000000000000000000000000000000001020100|9002:010000020000000000000000000000000000000002020100
9001:b0000001|9001:80010001
9001:b201000105
9002:b0000002|9002:80010002
turns:1
9002:b201000211|9002:81020002
9002:b30200022100
turns:1
?|9000|Some(Failed { slave: 1, phase: 1, cause: Unexpected { seq: 1, type_id: 178, state: 5 } })|true|3|0

&|the first slave is asked for its state, while the second one is silent
turns:1|9001:010000010000000000000000000000000000000001020100|9002:010000020000000000000000000000000000000002020100
9001:b0000001|9001:80010001
9001:b201000101
turns:20|9001:80020001
9001:b202000101
9002:b0000002|9002:80010002
9002:b201000201
turns:1|9001:24030001|9002:24020002
?|9000|None|false|22|0";

/// The address of the end at this port.
fn at(port: u16) -> Address {
    Address {
        ip: 0x7f00_0001,
        port,
    }
}

/// Appends all that is sent.
fn tell(alloc: Global, told: &mut String, master: &MasterCore) -> Result<(), Fail> {
    for i in 0..32 {
        if let Some((to, bytes)) = master.outgoing(i) {
            let port = to.port;
            let digits = hex::encode(alloc, bytes)?;
            write!(told, "|{port}:{digits}")?;
        }
    }
    Ok(())
}

/// Appends what is sent in so many turns.
fn tell_turns(
    alloc: Global,
    told: &mut String,
    master: &mut MasterCore,
    count: u32,
) -> Result<(), Fail> {
    for _ in 0..count {
        master.clear_outgoing();
        master.on_turn();
        tell(alloc, told, master)?;
    }
    Ok(())
}

/// Appends what is sent when the bytes come from this port.
fn tell_gram(
    alloc: Global,
    told: &mut String,
    master: &mut MasterCore,
    port: u16,
    digits: &str,
) -> Result<(), Fail> {
    let bytes = hex::decode(alloc, digits)?;
    master.clear_outgoing();
    master.on_gram(at(port), &bytes);
    tell(alloc, told, master)
}

/// Appends how the master stands.
fn tell_standing(told: &mut String, master: &MasterCore) -> Result<(), Fail> {
    let port = master.address().port;
    let over = master.is_over();
    let turns = master.turns();
    let rows = master.rows();
    write!(told, "|{port}|{:?}|{over}|{turns}|{rows}", master.report())?;
    Ok(())
}

/// Appends the value of a row, a slave and a port, which are separated by spaces.
fn tell_value(told: &mut String, master: &MasterCore, place: &str) -> Result<(), Fail> {
    let mut words = place.split(' ');
    let row = words.next().unwrap_or("").parse::<u32>().unwrap_or(0);
    let slave = words.next().unwrap_or("").parse::<u8>().unwrap_or(0);
    let port = words.next().unwrap_or("").parse::<u8>().unwrap_or(0);
    write!(told, "|{:?}", master.row(row, slave, port))?;
    Ok(())
}

/// Appends what comes of an event.
fn tell_event(
    alloc: Global,
    told: &mut String,
    scenario: &Scenario,
    plan: &Plan,
    master: &mut MasterCore,
    event: &str,
) -> Result<(), Fail>
    requires { plan.now ≡ plan_of scenario.now }
{
    let (word, rest) = event.split_once(':').unwrap_or((event, ""));
    match word {
        "?" => tell_standing(told, master),
        "row" => tell_value(told, master, rest),
        "turns" => tell_turns(alloc, told, master, rest.parse().unwrap_or(0)),
        "setup" => plans::tell_setup(alloc, told, scenario, plan, rest.parse().unwrap_or(0)),
        "adjust" => plans::tell_adjust(alloc, told, scenario, plan, rest.parse().unwrap_or(0)),
        "links" => plans::tell_links(told, plan.links()),
        _ => tell_gram(alloc, told, master, word.parse().unwrap_or(0), rest),
    }
}

/// Appends the events of a script, with what comes of each.
fn tell_events(
    alloc: Global,
    told: &mut String,
    scenario: &Scenario,
    plan: &Plan,
    events: &str,
) -> Result<(), Fail>
    requires sound { IsScenario scenario.now }
    requires plan { plan.now ≡ plan_of scenario.now }
{
    let mut master = MasterCore::new(alloc, scenario, plan)?;
    for line in events.lines() {
        let (event, _) = line.split_once('|').unwrap_or((line, ""));
        write!(told, "\n{event}")?;
        tell_event(alloc, told, scenario, plan, &mut master, event)?;
    }
    Ok(())
}

/// Appends the events of a script, played in a scenario.
fn tell_planned(
    alloc: Global,
    told: &mut String,
    scenario: &Scenario,
    events: &str,
) -> Result<(), Fail>
    requires { IsScenario scenario.now }
{
    let plan = plan(alloc, scenario)?;
    tell_events(alloc, told, scenario, &plan, events)
}

/// Appends the events of a script, played in the scenario that a cell writes.
pub fn tell_script(alloc: Global, told: &mut String, cell: &str, events: &str) -> Result<(), Fail> {
    let scenario = scenario_of(alloc, cell)?;
    tell_planned(alloc, told, &scenario, events)
}
