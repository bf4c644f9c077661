//! The cycle bound, over the grid's definitions: an eager cycle of a grid that has its rule commits the oldest
//! frame's block, traps, or lowers what is left for the block, whatever the other frames do; so a run costs at most
//! so many cycles.
//!
//! specs/inside/Rule.antt has the rule of a grid, and specs/inside/UnderWay.antt what is under way of one frame:
//! every cycle keeps it. specs/inside/Lane.antt has the lane, the grid as its oldest frame sees it,
//! specs/inside/Serving.antt its cycle, and specs/inside/Left.antt what is left for it. specs/inside/Shows.antt has
//! the oldest frame behind a part of a cycle, specs/inside/Behind.antt what stays of it while other frames act, and
//! specs/inside/ServedFirst.antt a cycle in which one grid of several comes first. specs/inside/OneCycle.antt has the
//! bound of one cycle, specs/inside/GoesOn.antt the runs that go on.
#![tactic(auto)]

mod lane_law;
mod law;
mod rule_law;
mod served_law;

pub use lane_law::{
    courses_are_good, cycles_are_bounded, lanes_begin_right, lanes_see_the_window,
    served_cycles_fall, traces_are_priced,
};
pub use law::{
    cycles_cost_at_most, lanes_have_their_rule, one_cycle_commits_or_lowers,
    rules_give_what_parts_ask,
};
pub use rule_law::{
    cycles_count_generations, cycles_keep_the_rule, grids_begin_right, parts_keep_the_rule,
    turns_keep_the_rule,
};
pub use served_law::{
    arrivals_serve, banks_serve, cycles_stay_within, data_tiles_serve, eager_cycles_come_first,
    eager_cycles_serve, far_units_stay, fetches_serve, first_frames_are_served,
    held_cycles_are_bounded, held_cycles_fall, idle_parts, oldest_frames_end, oldest_parcels_tick,
    tables_tell, units_serve, units_stay,
};
