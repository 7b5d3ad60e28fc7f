//! What holds of all streams and of all lists of calls.

ghost use Rattle.stream_frame.specs.Laws.{AtMostOneCut, EveryChunkingIsExact, SomeCut};

/// Bytes are cut into frames and a rest in one way.
pub fn bytes_are_cut_in_one_way()
    ensures some { SomeCut }
    ensures one { AtMostOneCut }
{}

/// In every list of calls that a reader stands for, whatever the pieces, the bytes that were taken are the
/// frames that were handed out followed by the bytes that are held.
pub fn every_chunking_is_exact()
    ensures { EveryChunkingIsExact }
{}
