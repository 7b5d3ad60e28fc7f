//! The keys of a scenario, and the section that each belongs to.

ghost use Rattle.std.specs.Prelude.{◌≡◌};
ghost use Rattle.scenario_text.specs.Keys.{head_key, link_key, any_key, head_code, section_of, closes_block};

use desc_text::{Key, key_of};

/// The keys of the head.
#[derive(Clone, Copy, Debug, PartialEq, Eq)]
pub enum HeadKey {
    Steps,
    Master,
    Micro,
    Protocol,
    Runs,
    TurnLimit,
    Tries,
    WatchTurns,
    StateLimit,
    RetryTurns,
    DataTurns,
    StepTries,
}

/// The keys of the links.
#[derive(Clone, Copy, Debug, PartialEq, Eq)]
pub enum LinkKey {
    Wire,
    Set,
    RerunSet,
    Every,
    Drop,
    Copy,
    Hold,
    Chaos,
}

/// The keys of a scenario.
#[derive(Clone, Copy, Debug, PartialEq, Eq)]
pub enum AnyKey {
    Head(HeadKey),
    Block(Key),
    Link(LinkKey),
}

fn head_key(word: &[u8]) -> Option<HeadKey>
    ensures { result ≡ head_key word.now }
{
    if word == b"steps".as_slice() {
        return Some(HeadKey::Steps);
    }
    if word == b"master".as_slice() {
        return Some(HeadKey::Master);
    }
    if word == b"micro".as_slice() {
        return Some(HeadKey::Micro);
    }
    if word == b"protocol".as_slice() {
        return Some(HeadKey::Protocol);
    }
    if word == b"runs".as_slice() {
        return Some(HeadKey::Runs);
    }
    if word == b"turn_limit".as_slice() {
        return Some(HeadKey::TurnLimit);
    }
    if word == b"tries".as_slice() {
        return Some(HeadKey::Tries);
    }
    if word == b"watch_turns".as_slice() {
        return Some(HeadKey::WatchTurns);
    }
    if word == b"state_limit".as_slice() {
        return Some(HeadKey::StateLimit);
    }
    if word == b"retry_turns".as_slice() {
        return Some(HeadKey::RetryTurns);
    }
    if word == b"data_turns".as_slice() {
        return Some(HeadKey::DataTurns);
    }
    if word == b"step_tries".as_slice() {
        return Some(HeadKey::StepTries);
    }
    None
}

fn link_key(word: &[u8]) -> Option<LinkKey>
    ensures { result ≡ link_key word.now }
{
    if word == b"wire".as_slice() {
        return Some(LinkKey::Wire);
    }
    if word == b"set".as_slice() {
        return Some(LinkKey::Set);
    }
    if word == b"rerun_set".as_slice() {
        return Some(LinkKey::RerunSet);
    }
    if word == b"every".as_slice() {
        return Some(LinkKey::Every);
    }
    if word == b"drop".as_slice() {
        return Some(LinkKey::Drop);
    }
    if word == b"copy".as_slice() {
        return Some(LinkKey::Copy);
    }
    if word == b"hold".as_slice() {
        return Some(LinkKey::Hold);
    }
    if word == b"chaos".as_slice() {
        return Some(LinkKey::Chaos);
    }
    None
}

/// The key that a word is.
pub fn any_key(word: &[u8]) -> Option<AnyKey>
    ensures { result ≡ any_key word.now }
{
    if let Some(key) = head_key(word) {
        return Some(AnyKey::Head(key));
    }
    if let Some(key) = key_of(word) {
        return Some(AnyKey::Block(key));
    }
    match link_key(word) {
        Some(key) => Some(AnyKey::Link(key)),
        None => None,
    }
}

impl HeadKey {
    /// The place among the keys of the head, by which they are told apart.
    pub fn code(self) -> u8
        ensures { result ≡ head_code self }
    {
        match self {
            HeadKey::Steps => 0,
            HeadKey::Master => 1,
            HeadKey::Micro => 2,
            HeadKey::Protocol => 3,
            HeadKey::Runs => 4,
            HeadKey::TurnLimit => 5,
            HeadKey::Tries => 6,
            HeadKey::WatchTurns => 7,
            HeadKey::StateLimit => 8,
            HeadKey::RetryTurns => 9,
            HeadKey::DataTurns => 10,
            HeadKey::StepTries => 11,
        }
    }
}

impl AnyKey {
    /// The section: 0 is the head, 1 the slaves, 2 the links.
    pub fn section(self) -> u8
        ensures { result ≡ section_of self }
    {
        match self {
            AnyKey::Head(_) => 0,
            AnyKey::Block(_) => 1,
            AnyKey::Link(_) => 2,
        }
    }

    /// Whether a line of this key closes the open block.
    pub fn closes_block(self) -> bool
        ensures { result ≡ closes_block self }
    {
        match self {
            AnyKey::Block(Key::Slave) => true,
            AnyKey::Link(_) => true,
            _ => false,
        }
    }
}
