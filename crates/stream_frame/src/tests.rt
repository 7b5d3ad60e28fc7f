use crate::frames::{FRAME_ROOM, Frame, LONGEST_FRAME, put_frame};
use crate::readers::FrameReader;
use dcp_types::OutOfMemory;

/// A frame of four bytes, three times, and then a length of 1,025.
const STREAM: [u8; 28] = [
    4, 0, 0, 0, 0x80, 1, 0, 1, 4, 0, 0, 0, 0x80, 1, 0, 1, 4, 0, 0, 0, 0x80, 1, 0, 1, 1, 4, 0, 0,
];

/// What comes after each byte of it: `w` a whole frame, `b` a bad length, `.` nothing yet.
const ANSWERS: [u8; 28] = *b".......w.......w.......w...b";

fn letter(answer: Frame) -> u8 {
    match answer {
        Frame::Whole => b'w',
        Frame::NotYet => b'.',
        Frame::Bad { length: 1_025 } => b'b',
        Frame::Bad { .. } => b'?',
    }
}

#[test]
fn frames_come_whole_from_pieces_of_one_byte(rt: HostRuntime) -> Result<(), OutOfMemory> {
    let mut reader = FrameReader::new(rt.alloc())?;
    assert_eq!(rt; reader.frame().len(), 0);
    for i in 0..28usize {
        assert_eq!(rt; reader.feed(&[STREAM[i]]), 1);
        let answer = letter(reader.next_frame());
        assert_eq!(rt; answer, ANSWERS[i]);
        if answer == b'w' {
            assert_eq!(rt; reader.frame(), [0x80u8, 1, 0, 1].as_slice());
        }
    }
    assert_eq!(rt; reader.feed(&[0]), 0);
    assert_eq!(rt; letter(reader.next_frame()), b'b');
    Ok(())
}

#[test]
fn the_longest_frame_is_put_and_read_back(rt: HostRuntime) -> Result<(), OutOfMemory> {
    let pdu = [7; LONGEST_FRAME];
    let mut room = [9; FRAME_ROOM];
    assert_eq!(rt; put_frame(&pdu, &mut room), FRAME_ROOM);
    assert_eq!(rt; &room[..5], [0u8, 4, 0, 0, 7].as_slice());
    let mut reader = FrameReader::new(rt.alloc())?;
    assert_eq!(rt; reader.feed(&room), FRAME_ROOM);
    assert_eq!(rt; reader.feed(&room), 0);
    assert_eq!(rt; reader.next_frame(), Frame::Whole);
    assert_eq!(rt; reader.frame().len(), LONGEST_FRAME);
    assert_eq!(rt; reader.next_frame(), Frame::NotYet);
    Ok(())
}
