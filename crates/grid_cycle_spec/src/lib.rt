//! The grid, as definitions: sixteen execution tiles, four register banks, four data tiles and a control tile on
//! a mesh, which move a window of frames in flight by cycles; and the laws of these cycles.
//!
//! specs/Cycles.antt has the cycle, part by part. Each part is a fold over its stations in ascending number, and
//! only the mesh moves all at once.
#![tactic(auto)]

mod law;

pub use law::{
    costs_add_up, costs_are_bounded, cycles_are_events, cycles_take_steps, links_lead_nearer,
    operations_take_time, stations_are_nodes, weather_changes_no_state,
    wrong_loads_are_flushed_first,
};
