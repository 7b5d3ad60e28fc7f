//! The parameters of a model.

use dcp_types::Items;

/// Parameters in the order of the kind's row in the table of models, numbered from 0.
pub type Parameters = Items<i64>;
