//! The master of the definition is a master of the laws over a run, on every network, honest or not.
//!
//! `Meets`: its requests; `Hears`: the answer that decides a request is the one that it takes; `Rows`, `RowCounts`,
//! `Rest`, `Barrier`: the row events that it asks for, one after the other and in step with the phases; `PlanOrder`:
//! each new request follows the plan. There is no code.
#![tactic(auto)]

pub mod barrier_laws;
pub mod hearing_laws;
pub mod plan_order;
pub mod request_laws;
pub mod rest_laws;
pub mod row_counts;
pub mod row_laws;
