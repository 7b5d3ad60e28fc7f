//! What is kept of the data ids of a slave.

ghost use Rattle.std.specs.Prelude.{◌≡◌, ◌≤◌, ◌*◌, length, vec_capacity, All, count_by, is_some};
ghost use Rattle.fixed_models.specs.Domains.{IsInput};

use crate::data_ids::DataIds;
use crate::places::PortPlaces;
use dcp_types::{Address, DataType};
use slave_desc::Port;

/// What is known of an output id.
#[derive(Drop)]
pub(crate) struct OutputRow {
    pub(crate) places: PortPlaces,
    pub(crate) target: Option<Address>,
    /// The steps from one message to the next.
    pub(crate) interval: u32,
    /// The number of the first message of this run.
    pub(crate) base: u16,
}

/// The output ids, ascending, each with what is known of it.
#[derive(Drop)]
pub(crate) struct Outputs {
    pub(crate) ports: Vec<Port>,
    pub(crate) ids: DataIds,
    pub(crate) rows: Vec<OutputRow>,
    ghost room: { 17 ≤ vec_capacity rows },
    ghost even: { length rows.items ≡ length ids },
}

/// What is known of an input id.
#[derive(Clone, Copy)]
pub(crate) struct InputRow {
    /// How many entries it has.
    pub(crate) count: u32,
    /// How many bytes its payload has.
    pub(crate) size: u32,
    pub(crate) source: Option<Address>,
    /// The steps from one message to the next.
    pub(crate) interval: u32,
    /// The number of the first message of this run.
    pub(crate) base: u16,
    /// The ordinal, in this run, of the payload that was kept last.
    pub(crate) kept: Option<u32>,
}

/// Where the value of an input stands: in the payloads of which id, from which byte on.
#[derive(Clone, Copy)]
pub(crate) struct Segment {
    pub(crate) id: u16,
    pub(crate) offset: u32,
    pub(crate) kind: DataType,
}

/// A slave has at most so many inputs.
pub(crate) const INPUTS: usize = 8;

/// The input ids, ascending, each with what is known of it, and the values of the inputs.
#[derive(Drop)]
pub(crate) struct Inputs {
    pub(crate) ports: Vec<Port>,
    pub(crate) ids: DataIds,
    pub(crate) rows: Vec<InputRow>,
    /// By port: where its value stands, once some id has an entry for it.
    pub(crate) segments: [Option<Segment>; INPUTS],
    /// By port: the value kept last.
    pub(crate) values: [i128; INPUTS],
    ghost few: { length ports.items ≤ 8 },
    ghost room: { 8 ≤ vec_capacity rows },
    ghost even: { length rows.items ≡ length ids },
    ghost wired: { length ids ≤ count_by is_some segments },
    ghost sized: { All (λ row. row.size ≤ 8 * row.count) rows.items },
    ghost inputs: { All IsInput values },
}
