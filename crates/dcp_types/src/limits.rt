//! How long the master waits, and how often it asks.

/// The limits of a scenario. A turn is one turn of the master, and each limit but `tries` and
/// `step_tries` counts turns.
#[derive(Clone, Copy, Debug, PartialEq, Eq)]
pub struct Limits {
    /// Turns without an answer after which a request is sent again: 1 to 1,000.
    pub turn_limit: u32,
    /// Sendings of one request before the slave counts as not answering: 1 to 20.
    pub tries: u32,
    /// Turns after the last answer before the state is asked for: 1 to 1,000.
    pub watch_turns: u32,
    /// Turns in a passing state after which the slave counts as stuck: 1 to 1,000.
    pub state_limit: u32,
    /// Turns between a step that was refused for missing inputs and the next try: 1 to 1,000.
    pub retry_turns: u32,
    /// Turns that the watch data may lag behind the state that it belongs to: 1 to 1,000.
    pub data_turns: u32,
    /// Tries of one step before its inputs count as missing: 2 to 20.
    pub step_tries: u32,
}
