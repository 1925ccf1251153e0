//! What holds of a master and of clients that run apart, each in a program of its own, and only send each other messages: all
//! that holds of a world.
#![tactic(auto)]

mod laws;
mod masters;

pub use laws::{
    bytes_carry_messages, caches_answer_the_rows, caches_answer_what_crashes_leave,
    caches_show_the_rows, caches_show_what_crashes_leave, crashed_histories_are_runs,
    crashed_histories_hold, frames_are_deeds, frames_are_stored_deeds, groups_are_deeds,
    histories_are_runs, histories_hold, lost_groups_are_ends, nothing_comes_of_nobody,
    prefixes_are_points, refused_rows_may_stand, trails_are_deeds, two_programs_are_possible,
    unheard_are_as_untold, views_answer_the_rows, views_answer_what_crashes_leave,
};
pub use masters::{hosts_have_come_up, masters_go_on, masters_have_come_up, worlds_have_come_up};
