//! Laws of the networks of two windows of which one has all that is in the other: more trips never hurt who must arrive.
#![tactic(auto)]

mod feeds;
mod files;

pub use feeds::{
    a_longer_window_has_more, more_trips_are_as_good, more_trips_are_no_later, more_trips_embed,
    one_trip_more_has_more,
};
pub use files::{
    appended_rows_are_more, more_rows_are_no_later, more_rows_embed, more_rows_have_more,
};
