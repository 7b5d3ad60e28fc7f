//! Where going through a trace stops.

/// Where going through a trace stops, other than at its report.
#[derive(Clone, Copy, Debug, PartialEq, Eq)]
pub(crate) enum Stop {
    /// The entry at this place, from 0, differs.
    Differs { at: usize },
    /// The entries end.
    Unended,
}
