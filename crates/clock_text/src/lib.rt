//! Whole numbers, dates and moments of the civil clock as text.
#![tactic(auto)]

mod dates;
mod digits;
mod moments;

pub use dates::{one_text_for_each_date, read_date, read_time, weekday, write_date};
pub use digits::{read_optional_seconds, read_whole};
pub use moments::{
    one_text_for_all_nanos, one_text_for_each_moment, read_moment, read_nanos, write_moment,
    write_nanos,
};
