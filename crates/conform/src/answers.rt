//! What a check answers.

/// Why the entries of a slave break.
#[derive(Clone, Copy, Debug, PartialEq, Eq)]
pub enum BadWhy {
    /// The slave sent what it may not send there.
    Send,
    /// The slave did not send what it must have sent there.
    Missing,
}

/// What a check of a slave's entries answers.
#[derive(Clone, Copy, Debug, PartialEq, Eq)]
pub enum Conformance {
    /// The entries are allowed; so many of them are Gots and Turns of the slave.
    Follows { events: u64 },
    /// No allowed list begins with all of the entries, or none is those alone. The longest front of them
    /// with which one begins has `entry` entries; the entry behind it, if there is one, is the first that
    /// may not come.
    Bad { entry: u64, why: BadWhy },
}
