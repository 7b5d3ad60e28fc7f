//! Messages with their lines and bytes, each cut of the bytes, and lines and bytes that are refused. The
//! values are those of the format's own tables and of an independent model.

ghost use Rattle.std.specs.Prelude.{None};

use pdu_codec::{
    DecodeFault, DecodeWhy, bytes_say_what_they_spell, decode, encode, messages_have_one_spelling,
    read, read_and_written, refusals_are_unique, spellings_are_one_to_one, written_and_read,
};
use pdu_layout::{Pdu, in_range, listed_row};
use pdu_text::{
    PduTaker, PduTextRefused, names_are_one_to_one, print_pdu, printed_messages_read_back,
    put_pdu_text, texts_are_judged_once, with_pdu_text,
};
use std::alloc::{AllocError, Global};
use std::test::Fail;

/// Lines with the bytes of their messages, or the first rule that they break; and behind `#` bytes with
/// the number of bytes that are a message at least and its line, or where and why they cease to be one.
/// Bytes are hexadecimal. In a line `;` is a line feed, `^` a carriage return and `~` a byte that no
/// text has.
const ROWS: &str = "\
STC_register pdu_seq_id=4660 receiver=2 state_id=COMPUTED slave_uuid=01020304-0506-0708-090a-0b0c0d0e0f10 op_mode=2 major_version=1 minor_version=0;|013412020d0102030405060708090a0b0c0d0e0f10020100 true
#013412020d0102030405060708090a0b0c0d0e0f10020100|Some(24) true STC_register pdu_seq_id=4660 receiver=2 state_id=COMPUTED slave_uuid=01020304-0506-0708-090a-0b0c0d0e0f10 op_mode=2 major_version=1 minor_version=0
STC_deregister pdu_seq_id=4660 receiver=2 state_id=COMPUTED;|023412020d true
#023412020d|Some(5) true STC_deregister pdu_seq_id=4660 receiver=2 state_id=COMPUTED
STC_prepare pdu_seq_id=4660 receiver=2 state_id=COMPUTED;|033412020d true
#033412020d|Some(5) true STC_prepare pdu_seq_id=4660 receiver=2 state_id=COMPUTED
STC_configure pdu_seq_id=4660 receiver=2 state_id=COMPUTED;|043412020d true
#043412020d|Some(5) true STC_configure pdu_seq_id=4660 receiver=2 state_id=COMPUTED
STC_initialize pdu_seq_id=4660 receiver=2 state_id=COMPUTED;|053412020d true
#053412020d|Some(5) true STC_initialize pdu_seq_id=4660 receiver=2 state_id=COMPUTED
STC_run pdu_seq_id=4660 receiver=2 state_id=COMPUTED start_time=-2;|063412020dfeffffffffffffff true
#063412020dfeffffffffffffff|Some(13) true STC_run pdu_seq_id=4660 receiver=2 state_id=COMPUTED start_time=-2
STC_do_step pdu_seq_id=4660 receiver=2 state_id=COMPUTED steps=16909060;|073412020d04030201 true
#073412020d04030201|Some(9) true STC_do_step pdu_seq_id=4660 receiver=2 state_id=COMPUTED steps=16909060
STC_send_outputs pdu_seq_id=4660 receiver=2 state_id=COMPUTED;|083412020d true
#083412020d|Some(5) true STC_send_outputs pdu_seq_id=4660 receiver=2 state_id=COMPUTED
STC_stop pdu_seq_id=4660 receiver=2 state_id=COMPUTED;|093412020d true
#093412020d|Some(5) true STC_stop pdu_seq_id=4660 receiver=2 state_id=COMPUTED
STC_reset pdu_seq_id=4660 receiver=2 state_id=COMPUTED;|0a3412020d true
#0a3412020d|Some(5) true STC_reset pdu_seq_id=4660 receiver=2 state_id=COMPUTED
CFG_time_res pdu_seq_id=4660 receiver=2 numerator=1 denominator=1000;|2034120201000000e8030000 true
#2034120201000000e8030000|Some(12) true CFG_time_res pdu_seq_id=4660 receiver=2 numerator=1 denominator=1000
CFG_steps pdu_seq_id=4660 receiver=2 data_id=17 steps=16909060;|21341202110004030201 true
#21341202110004030201|Some(10) true CFG_steps pdu_seq_id=4660 receiver=2 data_id=17 steps=16909060
CFG_input pdu_seq_id=4660 receiver=2 data_id=17 pos=3 vr=578437695752307201 source_type=6;|2234120211000300010203040506070806 true
#2234120211000300010203040506070806|Some(17) true CFG_input pdu_seq_id=4660 receiver=2 data_id=17 pos=3 vr=578437695752307201 source_type=6
CFG_output pdu_seq_id=4660 receiver=2 data_id=17 pos=3 vr=578437695752307201;|23341202110003000102030405060708 true
#23341202110003000102030405060708|Some(16) true CFG_output pdu_seq_id=4660 receiver=2 data_id=17 pos=3 vr=578437695752307201
CFG_clear pdu_seq_id=4660 receiver=2;|24341202 true
#24341202|Some(4) true CFG_clear pdu_seq_id=4660 receiver=2
CFG_target_network_information pdu_seq_id=4660 receiver=2 data_id=17 protocol=4 port=32769 ip=127.0.0.1;|2534120211000401800100007f true
#2534120211000401800100007f|Some(13) true CFG_target_network_information pdu_seq_id=4660 receiver=2 data_id=17 protocol=4 port=32769 ip=127.0.0.1
CFG_source_network_information pdu_seq_id=4660 receiver=2 data_id=17 protocol=4 port=32769 ip=127.0.0.1;|2634120211000401800100007f true
#2634120211000401800100007f|Some(13) true CFG_source_network_information pdu_seq_id=4660 receiver=2 data_id=17 protocol=4 port=32769 ip=127.0.0.1
CFG_parameter pdu_seq_id=4660 receiver=2 vr=578437695752307201 type=7 value=-2;|27341202010203040506070807feffffffffffffff true
#27341202010203040506070807feffffffffffffff|Some(21) true CFG_parameter pdu_seq_id=4660 receiver=2 vr=578437695752307201 type=7 value=-2
CFG_tunable_parameter pdu_seq_id=4660 receiver=2 param_id=300 pos=3 vr=578437695752307201 type=4;|283412022c010300010203040506070804 true
#283412022c010300010203040506070804|Some(17) true CFG_tunable_parameter pdu_seq_id=4660 receiver=2 param_id=300 pos=3 vr=578437695752307201 type=4
CFG_param_network_information pdu_seq_id=4660 receiver=2 param_id=300 protocol=4 port=32769 ip=127.0.0.1;|293412022c010401800100007f true
#293412022c010401800100007f|Some(13) true CFG_param_network_information pdu_seq_id=4660 receiver=2 param_id=300 protocol=4 port=32769 ip=127.0.0.1
CFG_logging pdu_seq_id=4660 receiver=2 category=5 level=6 mode=7;|2a341202050607 true
#2a341202050607|Some(7) true CFG_logging pdu_seq_id=4660 receiver=2 category=5 level=6 mode=7
CFG_scope pdu_seq_id=4660 receiver=2 data_id=17 scope=1;|2b341202110001 true
#2b341202110001|Some(7) true CFG_scope pdu_seq_id=4660 receiver=2 data_id=17 scope=1
INF_state pdu_seq_id=4660 receiver=2;|80341202 true
#80341202|Some(4) true INF_state pdu_seq_id=4660 receiver=2
INF_error pdu_seq_id=4660 receiver=2;|81341202 true
#81341202|Some(4) true INF_error pdu_seq_id=4660 receiver=2
INF_log pdu_seq_id=4660 receiver=2 category=5 max_entries=9;|823412020509 true
#823412020509|Some(6) true INF_log pdu_seq_id=4660 receiver=2 category=5 max_entries=9
RSP_ack resp_seq_id=4660 sender=2;|b0341202 true
#b0341202|Some(4) true RSP_ack resp_seq_id=4660 sender=2
RSP_nack resp_seq_id=4660 sender=2 exp_seq_id=65534 error_code=33;|b1341202feff2100 true
#b1341202feff2100|Some(8) true RSP_nack resp_seq_id=4660 sender=2 exp_seq_id=65534 error_code=33
RSP_state_ack resp_seq_id=4660 sender=2 state_id=COMPUTED;|b23412020d true
#b23412020d|Some(5) true RSP_state_ack resp_seq_id=4660 sender=2 state_id=COMPUTED
RSP_error_ack resp_seq_id=4660 sender=2 error_code=33;|b33412022100 true
#b33412022100|Some(6) true RSP_error_ack resp_seq_id=4660 sender=2 error_code=33
RSP_log_ack resp_seq_id=4660 sender=2 entries=aabbcc;|b4341202aabbcc true
#b4341202aabbcc|Some(4) true RSP_log_ack resp_seq_id=4660 sender=2 entries=aabbcc
NTF_state_changed sender=2 state_id=COMPUTED;|e0020d true
#e0020d|Some(3) true NTF_state_changed sender=2 state_id=COMPUTED
NTF_log sender=2 category=5 level=6 text=aabbcc;|e1020506aabbcc true
#e1020506aabbcc|Some(4) true NTF_log sender=2 category=5 level=6 text=aabbcc
DAT_input_output pdu_seq_id=4660 data_id=17 payload=aabbcc;|f034121100aabbcc true
#f034121100aabbcc|Some(5) true DAT_input_output pdu_seq_id=4660 data_id=17 payload=aabbcc
DAT_parameter pdu_seq_id=4660 param_id=300 payload=aabbcc;|f134122c01aabbcc true
#f134122c01aabbcc|Some(5) true DAT_parameter pdu_seq_id=4660 param_id=300 payload=aabbcc
INF_state pdu_seq_id=17 receiver=2;|80110002 true
#80110002|Some(4) true INF_state pdu_seq_id=17 receiver=2
RSP_state_ack resp_seq_id=17 sender=2 state_id=COMPUTED;|b21100020d true
#b21100020d|Some(5) true RSP_state_ack resp_seq_id=17 sender=2 state_id=COMPUTED
RSP_error_ack resp_seq_id=32 sender=2 error_code=33;|b32000022100 true
#b32000022100|Some(6) true RSP_error_ack resp_seq_id=32 sender=2 error_code=33
STC_run pdu_seq_id=18 receiver=1 state_id=CONFIGURED start_time=0;|06120001050000000000000000 true
#06120001050000000000000000|Some(13) true STC_run pdu_seq_id=18 receiver=1 state_id=CONFIGURED start_time=0
CFG_parameter pdu_seq_id=3 receiver=1 vr=0 type=7 value=-2;|27030001000000000000000007feffffffffffffff true
#27030001000000000000000007feffffffffffffff|Some(21) true CFG_parameter pdu_seq_id=3 receiver=1 vr=0 type=7 value=-2
CFG_input pdu_seq_id=4 receiver=2 data_id=17 pos=0 vr=1 source_type=6;|2204000211000000010000000000000006 true
#2204000211000000010000000000000006|Some(17) true CFG_input pdu_seq_id=4 receiver=2 data_id=17 pos=0 vr=1 source_type=6
CFG_scope pdu_seq_id=0 receiver=1 data_id=5 scope=1;|2b000001050001 true
#2b000001050001|Some(7) true CFG_scope pdu_seq_id=0 receiver=1 data_id=5 scope=1
DAT_input_output pdu_seq_id=1 data_id=17 payload=14000000;|f00100110014000000 true
#f00100110014000000|Some(5) true DAT_input_output pdu_seq_id=1 data_id=17 payload=14000000
RSP_ack\tresp_seq_id=2  sender=7^;|b0020007 true
RSP_ack resp_seq_id=2 sender=7|b0020007 true
RSP_ack resp_seq_id=2 sender=7;; \t;|b0020007 true
DAT_input_output pdu_seq_id=1 data_id=17 payload=14000aFF;|f00100110014000aff true
#27000001000000000000000008|12 BadType
#ff|0 UnknownType
#b2110002|4 Short
#073412020b010000|8 Short
#e00113|2 BadState
#e0011300|2 BadState
#030200010100|5 Long
#|0 Empty
RSP_ack resp_seq_id=~ sender=7;|NOT_UTF8 true
RSP_no resp_seq_id=2;|UNKNOWN_KEY true
RSP_ack sender=2;|UNKNOWN_KEY true
|WORDS true
;RSP_ack resp_seq_id=2 sender=7;|WORDS true
RSP_ack resp_seq_id=2;|WORDS true
RSP_ack resp_seq_id=2 sender=7 x;|WORDS true
RSP_ack resp_seq_id=2 sender=7;x;|WORDS true
RSP_ack resp_seq_id=x sender=7;|BAD_NUMBER true
CFG_parameter pdu_seq_id=3 receiver=1 vr=0 type=0 value=-2;|BAD_NUMBER true
CFG_target_network_information pdu_seq_id=7 receiver=3 data_id=17 protocol=0 port=40000 ip=127.0.0.256;|BAD_NUMBER true
DAT_input_output pdu_seq_id=1 data_id=17 payload=140;|BAD_NUMBER true
STC_run pdu_seq_id=1 receiver=2 state_id=prepared start_time=-1;|BAD_NUMBER true
STC_register pdu_seq_id=0 receiver=1 state_id=ALIVE slave_uuid=0102 op_mode=2 major_version=1 minor_version=0;|BAD_UUID true
STC_reset pdu_seq_id=65536 receiver=1 state_id=ALIVE;|LIMIT true
CFG_parameter pdu_seq_id=3 receiver=1 vr=0 type=4 value=-129;|LIMIT true";

/// How many bytes of a message are one at least. None where a shorter front is refused in another way
/// than that it is empty or short, or a longer one is.
fn least_of(bytes: &[u8]) -> Option<usize> {
    let mut least = 0usize;
    for n in 0..bytes.len() {
        let short = DecodeFault {
            at: n,
            why: if n == 0 {
                DecodeWhy::Empty
            } else {
                DecodeWhy::Short
            },
        };
        match decode(&bytes[..n]) {
            Ok(_) => {}
            Err(fault) if fault == short && least == n => least = n.saturating_add(1),
            Err(_) => return None,
        }
    }
    Some(least)
}

/// Whether the bytes are those of the message.
fn is_spelled(bytes: &[u8], pdu: &Pdu<'_>) -> bool {
    if !in_range(pdu) {
        return false;
    }
    let mut room = [0xee; 1024];
    let length = encode(pdu, &mut room);
    &room[..length] == bytes
}

/// Compares the message that it is handed with the one in the bytes.
#[derive(Drop)]
struct Comparing<'a> {
    wanted: &'a [u8],
    right: bool,
    calls: u32,
}

impl<'a> PduTaker for Comparing<'a> {
    ghost taken = { λ _. None };

    fn take(&mut self, pdu: &Pdu<'_>) {
        self.right = is_spelled(self.wanted, pdu);
        self.calls = self.calls.saturating_add(1);
    }
}

/// Whether the line's message, with these bytes, is handed over once.
fn is_handed(alloc: Global, line: &[u8], bytes: &[u8]) -> bool {
    let mut taker = Comparing {
        wanted: bytes,
        right: false,
        calls: 0,
    };
    let answer = with_pdu_text(alloc, line, &mut taker);
    answer == Ok(()) && taker.right && taker.calls == 1
}

/// Whether nothing is handed over, and the line is refused.
fn is_kept(alloc: Global, line: &[u8], refused: PduTextRefused) -> bool {
    let mut taker = Comparing {
        wanted: b"",
        right: false,
        calls: 0,
    };
    let answer = with_pdu_text(alloc, line, &mut taker);
    answer == Err(refused) && taker.calls == 0
}

/// Appends the message that bytes are.
fn tell_bytes(alloc: Global, told: &mut String, bytes: &[u8]) -> Result<(), Fail> {
    match decode(bytes) {
        Ok(pdu) => {
            let spelled = is_spelled(bytes, &pdu);
            let line = print_pdu(alloc, &pdu)?;
            write!(told, "{:?} {spelled} {}", least_of(bytes), line.trim_end())?;
        }
        Err(DecodeFault { at, why }) => write!(told, "{at} {why:?}")?,
    }
    Ok(())
}

/// Appends the bytes of a line.
fn tell_line(alloc: Global, told: &mut String, line: &[u8]) -> Result<(), Fail> {
    let mut room = [0xee; 1024];
    match put_pdu_text(alloc, line, &mut room) {
        Ok(length) => {
            let bytes = &room[..length];
            let handed = is_handed(alloc, line, bytes);
            let digits = hex::encode(alloc, bytes)?;
            write!(told, "{digits} {handed}")?;
        }
        Err(refused) => {
            let kept = is_kept(alloc, line, refused);
            let word = match refused {
                PduTextRefused::Line { why } => why.word(),
                PduTextRefused::OutOfMemory => "OUT_OF_MEMORY",
            };
            write!(told, "{word} {kept}")?;
        }
    }
    Ok(())
}

/// The line that a cell writes.
fn unfolded(alloc: Global, cell: &str) -> Result<Vec<u8>, AllocError> {
    let mut line = Vec::new(alloc);
    for byte in cell.as_bytes() {
        let meant = match *byte {
            b';' => b'\n',
            b'^' => b'\r',
            b'~' => 0xff,
            byte => byte,
        };
        line.push(meant)?;
    }
    Ok(line)
}

/// A row with its answer made again.
fn again(alloc: Global, row: &str) -> Result<String, Fail> {
    let (question, _) = row.split_once('|').unwrap_or((row, ""));
    let mut told = format!(in alloc; "{question}|")?;
    match question.strip_prefix('#') {
        Some(digits) => tell_bytes(alloc, &mut told, &hex::decode(alloc, digits)?)?,
        None => tell_line(alloc, &mut told, &unfolded(alloc, question)?)?,
    }
    Ok(told)
}

#[test]
fn rows_have_their_answers(rt: HostRuntime) -> Result<(), Fail> {
    for row in ROWS.lines() {
        assert_eq!(rt; again(rt.alloc(), row)?.as_str(), row);
    }
    Ok(())
}

#[test]
fn a_message_has_a_kilobyte_at_most(rt: HostRuntime) {
    let mut bytes = [0; 1025];
    bytes[0] = 0xf0;
    bytes[1] = 1;
    bytes[3] = 17;
    let too_long = DecodeFault {
        at: 1024,
        why: DecodeWhy::TooLong,
    };
    assert!(rt; decode(&bytes) == Err(too_long));
    let more = Pdu::DataIo {
        seq: 1,
        data_id: 17,
        payload: &bytes[5..],
    };
    assert!(rt; !in_range(&more));
    let all = &bytes[..1024];
    assert!(rt; least_of(all) == Some(5));
    match read(all) {
        Some(pdu) => assert!(rt; is_spelled(all, &pdu)),
        None => assert!(rt; false),
    }
}

/// What holds of all messages.
fn laws() {
    spellings_are_one_to_one();
    messages_have_one_spelling();
    bytes_say_what_they_spell();
    refusals_are_unique();
    printed_messages_read_back();
    texts_are_judged_once();
    names_are_one_to_one();
}

#[test]
fn what_is_written_is_read(rt: HostRuntime) -> Result<(), Fail> {
    let mut room = [0; 1024];
    let pdu = Pdu::DataIo {
        seq: 1,
        data_id: 17,
        payload: &[20, 0, 0, 0],
    };
    if in_range(&pdu) {
        assert!(rt; written_and_read(&pdu, &mut room).is_ok());
        assert!(rt; read_and_written(&[0x80, 17, 0, 2], &mut room) == Ok(4));
    }
    match listed_row(0xf0) {
        Some(row) => assert_eq!(rt; row.name, "DAT_input_output"),
        None => assert!(rt; false),
    }
    let gone = DecodeFault {
        at: 2,
        why: DecodeWhy::BadState,
    };
    let said = format!(in rt.alloc(); "{gone}; {}", PduTextRefused::OutOfMemory)?;
    assert_eq!(rt;
        said.as_str(),
        "a state is unknown (at byte 2); out of memory"
    );
    laws();
    Ok(())
}
