//! What a network in memory does to the messages that it carries, as plain data.

use dcp_types::Items;

/// What befalls one message: the `nth`, from 1, of those with the type code `type_id` that one end
/// sends, or every one of them where `nth` is 0. The master is end 0, and slaves count from 1. A
/// message that is sent again counts anew, and of several lines that name it the first applies.
#[derive(Clone, Copy, Debug, PartialEq, Eq)]
pub enum NetLine {
    /// It is lost.
    Drop {
        end: u8,
        type_id: u8,
        nth: u32,
    },
    /// It comes at once, and a second time when `lag` more messages have been sent.
    Copy {
        end: u8,
        type_id: u8,
        nth: u32,
        lag: u32,
    },
    /// It comes when `lag` more messages have been sent.
    Hold {
        end: u8,
        type_id: u8,
        nth: u32,
        lag: u32,
    },
}

/// Treatment by chance of the messages that no line names. The generator of its draws begins at
/// `start`; of each thousand messages about so many are dropped, delivered twice and held back.
#[derive(Clone, Copy, Debug, PartialEq, Eq)]
pub struct Chaos {
    pub start: u64,
    pub drop: u32,
    pub repeat: u32,
    pub hold: u32,
}

/// Net lines in the order in which they were given.
pub type NetLines = Items<NetLine>;

/// The plan of a network in memory: its lines, and treatment by chance where there is any. With no
/// line and no chance, each message comes once, in order.
#[derive(Debug, Drop)]
pub struct NetPlan {
    pub lines: NetLines,
    pub chaos: Option<Chaos>,
}
