//! Rows of printed files: their fields as they are written, and as they are read.
//!
//! A call that takes an allocator may answer that there is no memory, as `NoMemory` or as the variant of that name; then
//! what it was lent is as it was, unless its own comment says otherwise.
#![tactic(auto)]

ghost use Rattle.std.specs.Prelude.{◌≡◌, ◌<◌, ◌++◌, map, IfOk, IfSome};
ghost use Rattle.std.specs.Option.{option_map};
ghost use Rattle.plan_model.specs.Network.{count};
ghost use Rattle.printed_rows.specs.Fields.{connection_of, is_query, whole_at, rises};
ghost use Rattle.printed_rows.specs.Records.{row_of_fields};

mod record;

use clock_text::read_whole;
use csv::WriterBuilder;
use plan_model::{ConnectionId, Moment, Network, NoMemory, PlaceId, RunId};
pub use record::Record;

/// The connection of a run and step; `None` if the run has no such step.
pub fn connection_of(network: &Network, run: RunId, step: u32) -> Option<ConnectionId>
    ensures number { option_map (λ id. id.0) result ≡ connection_of network.now run.0 step }
    ensures there { IfSome result (λ id. id.0 < count network.now) }
{
    network.find(run, step)
}

/// The greatest whole number of nine digits.
pub const MOST_WHOLE: u32 = 999_999_999;

/// A law, with no code: the greatest whole number that a printed row may have.
pub fn most_whole_is_nine_digits()
    ensures { MOST_WHOLE ≡ 999999999 }
{}

/// A whole number of one to nine digits; `None` if the text is not of this form.
pub fn whole(text: &[u8]) -> Option<u32>
    ensures { result ≡ whole_at text.now }
{
    read_whole(text, MOST_WHOLE)
}

/// Whether two places and a moment are these.
pub fn is_query(
    places: (PlaceId, PlaceId),
    moment: Moment,
    source: PlaceId,
    target: PlaceId,
    start: Moment,
) -> bool
    ensures { result ≡ is_query places.0.0 places.1.0 moment.0 source.0 target.0 start.0 }
{
    places.0.0 == source.0 && places.1.0 == target.0 && moment.0 == start.0
}

/// Whether a number is greater than the one before, if there is one.
pub fn rises(last: Option<u64>, x: u64) -> bool
    ensures { result ≡ rises last x }
{
    match last {
        Some(last) => last < x,
        None => true,
    }
}

/// Puts a row of fields behind a text. A field is quoted if it needs it.
#[tactic(auto, unfolding(crate::specs::Records::row_of_fields))]
pub fn put_row(text: Vec<u8>, fields: &[&[u8]]) -> Result<Vec<u8>, NoMemory>
    ensures { IfOk result (λ whole. whole.items ≡ text.items ++ row_of_fields (map (λ field. field.now) fields.now)) }
{
    let mut writer = WriterBuilder::new().from_writer(text);
    writer.write_fields(fields).map_err(|_| NoMemory)?;
    writer.into_inner().map_err(|_| NoMemory)
}
