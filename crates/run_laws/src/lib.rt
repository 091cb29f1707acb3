//! Laws of whole runs, which no code runs for: one question has one text, and what one command prints another takes.
#![tactic(auto)]

mod answers;
mod commands;
mod graphs;
mod pairs;
mod runs;
#[cfg(test)]
mod tests;

pub use answers::{
    a_query_has_a_safe_strategy, one_expanded_answer, one_plan_answer, one_punctual_answer,
    one_safe_answer,
};
pub use commands::{
    a_printed_certificate_is_accepted, a_printed_plan_arrives, a_printed_plan_is_accepted,
    a_printed_plan_is_never_stuck, a_printed_plan_keeps_its_upper_bound,
    a_row_has_the_bound_of_a_plan, certificate_value_is_within_plan_bounds,
    latest_ends_as_departures, latest_ends_by_the_least_worst,
};
pub use graphs::{
    one_expanded_plan, one_plan, one_scan_order, one_strategy_of_both, one_tidy_graph,
    one_whole_graph,
};
pub use pairs::{Host, run_both};
pub use runs::{words_have_one_end, words_have_one_run};
