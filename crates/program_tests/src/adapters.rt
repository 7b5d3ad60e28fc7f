//! The adapters over readers and writers of the standard library: how often an interrupted call is
//! made again, that no other call is, and that they pass on what the device does.

ghost use Rattle.std.specs.Prelude.{◌≤◌, IfOk};

use dcp_io::{Read, Sink, Source, StdSink, StdSource, Written};
use std::io;
use std::test::Fail;

/// A device whose first calls are interrupted, the next of which fail, and which then moves bytes: at
/// most so many a call.
#[derive(Clone, Copy)]
pub struct Device {
    pub interrupted: u32,
    pub failing: u32,
    pub most: usize,
}

impl Device {
    fn turn(&mut self, size: usize) -> io::Result<usize>
        ensures { IfOk result (λ n. n ≤ size) }
    {
        if self.interrupted > 0 {
            self.interrupted -= 1;
            return Err(io::Error::from(io::ErrorKind::Interrupted));
        }
        if self.failing > 0 {
            self.failing -= 1;
            return Err(io::Error::from(io::ErrorKind::BrokenPipe));
        }
        Ok(size.min(self.most))
    }
}

impl io::Read for Device {
    fn read(&mut self, room: &mut [u8]) -> io::Result<usize> {
        self.turn(room.len())
    }
}

impl io::Write for Device {
    fn write(&mut self, piece: &[u8]) -> io::Result<usize> {
        self.turn(piece.len())
    }

    fn flush(&mut self) -> io::Result<()> {
        Ok(())
    }
}

/// What the first call and the next come to, for a reader and for a writer.
#[derive(Clone, Copy)]
struct Case {
    device: Device,
    reads: [Read; 2],
    writes: [Written; 2],
}

fn device_of(interrupted: u32, failing: u32, most: usize) -> Device {
    Device {
        interrupted,
        failing,
        most,
    }
}

#[test]
fn interrupted_calls_are_made_again_and_no_others(rt: HostRuntime) {
    let cases = [
        // At most a thousand calls are made.
        Case {
            device: device_of(999, 0, 1),
            reads: [Read::Bytes(1), Read::Bytes(1)],
            writes: [Written::Wrote(1), Written::Wrote(1)],
        },
        Case {
            device: device_of(1_000, 0, 1),
            reads: [Read::Failed, Read::Bytes(1)],
            writes: [Written::Failed, Written::Wrote(1)],
        },
        Case {
            device: device_of(2_500, 0, 1),
            reads: [Read::Failed, Read::Failed],
            writes: [Written::Failed, Written::Failed],
        },
        // A call that fails otherwise is not made again.
        Case {
            device: device_of(0, 1, 9),
            reads: [Read::Failed, Read::Bytes(9)],
            writes: [Written::Failed, Written::Wrote(9)],
        },
        Case {
            device: device_of(3, 1, 9),
            reads: [Read::Failed, Read::Bytes(9)],
            writes: [Written::Failed, Written::Wrote(9)],
        },
        // A whole piece is moved at once, where the device moves it.
        Case {
            device: device_of(0, 0, 4_096),
            reads: [Read::Bytes(4_096), Read::Bytes(4_096)],
            writes: [Written::Wrote(4_096), Written::Wrote(4_096)],
        },
        // A reader that gives nothing is at its end, and a writer that takes nothing has failed.
        Case {
            device: device_of(0, 0, 0),
            reads: [Read::End, Read::End],
            writes: [Written::Failed, Written::Failed],
        },
    ];
    for case in cases {
        let mut source = StdSource::new(case.device);
        let mut sink = StdSink::new(case.device);
        let mut room = [0u8; 4_096];
        for read in case.reads {
            assert_eq!(rt; source.read(&mut room), read);
        }
        for written in case.writes {
            assert_eq!(rt; sink.write(&room), written);
        }
    }
}

#[test]
fn readers_and_writers_of_std_serve(rt: HostRuntime) -> Result<(), Fail> {
    let mut room = [0u8; 4];
    let mut source = StdSource::new(b"abcde".as_slice());
    for read in [Read::Bytes(4), Read::Bytes(1), Read::End] {
        assert_eq!(rt; source.read(&mut room), read);
    }
    let mut sink = StdSink::new(Vec::new(rt.alloc()));
    assert_eq!(rt; sink.write(b"xy"), Written::Wrote(2));
    assert!(rt; sink.into_inner().as_slice() == b"xy".as_slice());
    Ok(())
}
