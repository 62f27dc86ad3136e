//! Laws of what typed programs mean, on which the theorems about nodes stand.
#![tactic(auto)]

mod cell_laws;
mod laws;
mod nest_laws;

pub use cell_laws::statements_are_local_by_cells;
pub use laws::{
    handlers_are_idle, input_and_output_stay, loops_are_counted, nests_are_counted,
    node_is_unasked, notes_lie, output_is_unseen, points_have_owners, points_reach_cells,
    shadows_are_held, shape_stays, statements_are_local, steps_stay, values_lie,
};
pub use nest_laws::{
    bodies_leave_bounds, nests_are_folds, parts_are_folds, tuples_are_known, tuples_rise,
};
