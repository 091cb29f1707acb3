//! Laws of two timetables of which one offers no less than the other: more service never hurts who must arrive.
#![tactic(auto)]

mod changed;
mod embeds;
mod plans;

pub use changed::{
    fewer_delays_embed, more_connections_embed, more_links_embed, shorter_changes_embed,
};
pub use embeds::{
    by_weight_embeds, embeds_one_after_another, more_service_is_as_good, more_service_is_no_later,
    more_service_is_no_worse,
};
pub use plans::a_plan_with_more_service_is_no_worse;
