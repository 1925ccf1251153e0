//! What a master does for its clients, as laws of its tables: who is given a handle, what a closed handle is still good
//! for, what a refused call changes, what a sequencer shows, whom a write waits for, what the limits of a cell leave of
//! it, and who is known no more.
#![tactic(auto)]

mod forgotten;
mod free_locks;
mod handles;
mod leaves;
mod limits;
mod opens;
mod refusals;
mod sequencers;
mod settling;
mod waits;

pub use forgotten::{forgotten_stay_forgotten, who_goes_has_ended};
pub use free_locks::awaited_locks_are_held;
pub use handles::{
    close_closes, close_closes_for_good, closed_for_good_by_messages, closed_for_good_by_sweeps,
    closed_for_good_forever, closed_handle_is_refused, closed_handle_stays_closed,
};
pub use leaves::{leave_ends_session, leave_waits_beside};
pub use limits::cells_stay_within;
pub use opens::{
    given_handle_is_open, kept_numbers_are_carried, makes_only_where_permitted,
    makes_where_permitted, opens_where_permitted,
};
pub use refusals::{
    refusal_grants_absence_alone, refused_application_changes_nothing,
    refused_call_changes_nothing, turned_away_changes_nothing,
};
pub use sequencers::sequencers_show_the_rows;
pub use settling::{settling_ends, sweeps_are_counted, sweeps_leave_less};
pub use waits::{
    a_change_waits, changes_go_on, each_is_held_up, recoveries_end, recovery_is_held_up,
    rights_come_back, sessions_end_in_time, silent_clients_hold_nothing, silent_sessions_end,
};
