//! What holds of a state that was saved, of another configuration, and after any events and reloads; how far ahead
//! timers expire; and how the plane of docs/DATAPLANE.md goes on over reloads.
#![tactic(auto)]

mod history;
pub mod near;
mod placed;
mod reloaded;
pub mod reported;
mod restored;

pub use history::{
    call_is_asked, calls_lead_on, counted_stay_within_the_greatest, events_alone_are_a_run,
    facts_stay_within_the_greatest, led_states_rest, nothing_flows_unasked_over_reloads,
    past_of_events, read_state_is_led_to, removals_copy_nothing,
};
pub use placed::{
    addresses_go_along, facts_go_with_their_link, identity_places_are_reload,
    neighbours_stay_or_go, orders_are_accepted, placed_are_configured, placed_reload_is_under,
    placed_reload_leaves_rest, places_are_apart, places_are_there, places_go_by_the_map,
};
pub use reloaded::{
    appended_move_nothing, delays_move_nothing, goodbye_reads, hellos_leave_first, kept_stay_up,
    next_query_is_near_anew, no_other_hello, none_of_removed, reload_is_under,
    reload_keeps_configured, reload_leaves_rest, same_reload_changes_nothing,
    settings_move_nothing, untold_says_same,
};
pub use restored::{
    accepted_stays, candidates_stay_accepted, fresh_settings_keep_rest, later_run_is_asked,
    later_state_is_reached, next_tells_ahead, reload_is_at_rest, rest_is_decided,
    restart_changes_nothing, restart_is_asked, same_configuration_changes_nothing,
    saved_candidates_are_accepted, saved_is_accepted, saved_is_at_rest,
};
