//! The program over readers and writers of the standard library, and outputs of more than one piece.

use crate::adapters::Device;
use commands::{Status, Words, run_program, run_words};
use dcp_io::{MemorySink, MemorySource};
use net_world::MemoryNet;
use std::alloc::Global;
use std::process::ExitCode;
use std::test::Fail;

fn words_of(alloc: Global, text: &str) -> Result<Words, Fail> {
    let mut words = Words::new(alloc);
    for word in text.split_whitespace() {
        words.push(alloc, word)?;
    }
    Ok(words)
}

#[test]
fn the_exit_status_is_the_number_of_the_status(rt: HostRuntime) -> Result<(), Fail> {
    let alloc = rt.alloc();
    let rows = [
        (
            "decode",
            b"\xb0\x02\x00\x01".as_slice(),
            0u8,
            "RSP_ack resp_seq_id=2 sender=1\n",
        ),
        ("-decode", b"\xb0\x02\x00\x01".as_slice(), 1, "usage\n"),
        ("decode", b"".as_slice(), 2, "input: byte 0 EMPTY\n"),
    ];
    for (words, input, code, out) in rows {
        let words = words_of(alloc, words)?;
        let ended = run_program(alloc, &words, input, Vec::new(alloc), Vec::new(alloc));
        assert_eq!(rt; ended.code, ExitCode::from(code));
        assert!(rt; ended.writer.as_slice() == out.as_bytes(), "{out}");
    }
    Ok(())
}

#[test]
fn faults_of_reader_and_writer_decide_the_exit_status(rt: HostRuntime) -> Result<(), Fail> {
    let alloc = rt.alloc();
    let broken = Device {
        interrupted: 2,
        failing: 1,
        most: 1,
    };
    let describe = words_of(alloc, "describe")?;
    let unread = run_program(alloc, &describe, broken, Vec::new(alloc), Vec::new(alloc));
    assert_eq!(rt; unread.code, ExitCode::from(4));
    assert!(rt; unread.writer.is_empty());
    let decode = words_of(alloc, "decode")?;
    let unwritten = run_program(
        alloc,
        &decode,
        b"\xb0\x02\x00\x01".as_slice(),
        broken,
        Vec::new(alloc),
    );
    assert_eq!(rt; unwritten.code, ExitCode::from(5));
    let refused = run_program(alloc, &decode, b"".as_slice(), broken, Vec::new(alloc));
    assert_eq!(rt; refused.code, ExitCode::from(2));
    Ok(())
}

const LONG: &[u8] = b"steps 1000
master 127.0.0.1 9000
slave src
uuid 00000000-0000-0000-0000-000000000001
address 127.0.0.1 9001
model const 3
output 1 int32
";

/// The rows of a thousand steps of a constant, and the line after them.
fn long_text(alloc: Global) -> Result<Vec<u8>, Fail> {
    let mut text = String::new(alloc);
    for step in 0..1_001 {
        write!(text, "{step} 3\n")?;
    }
    write!(text, "finished 1000\n")?;
    Ok(text.into_bytes())
}

#[test]
fn an_output_of_several_pieces_is_written_whole_or_cut(rt: HostRuntime) -> Result<(), Fail> {
    let alloc = rt.alloc();
    let words = words_of(alloc, "reference")?;
    let text = long_text(alloc)?;
    let whole = run_program(alloc, &words, LONG, Vec::new(alloc), Vec::new(alloc));
    assert_eq!(rt; whole.code, ExitCode::from(0));
    assert!(rt; whole.writer == text);

    let mut source = MemorySource::new(LONG.to_vec(alloc)?, Vec::new(alloc), Vec::new(alloc));
    let mut room = Vec::new(alloc);
    for _ in 0..10_000 {
        room.push(0)?;
    }
    let mut out = MemorySink::new(room, [2].to_vec(alloc)?);
    let mut trace = MemorySink::new(Vec::new(alloc), Vec::new(alloc));
    let mut net = MemoryNet::new(alloc);
    assert_eq!(rt;
        run_words(alloc, &words, &mut source, &mut out, &mut trace, &mut net),
        Status::WriteFault
    );
    let written = out.written();
    assert!(rt; 0 < written.len() && written.len() <= 4_096);
    assert!(rt; text.as_slice().starts_with(written));
    Ok(())
}
