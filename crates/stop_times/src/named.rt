//! What the fields of a row name.
ghost use Rattle.std.specs.Prelude.{◌≡◌, length};

use text_index::TextIndex;

/// What the fields of a row name: the trips, and the stops with the place of each.
#[derive(Drop)]
pub(crate) struct Named<'a> {
    pub(crate) trips: TextIndex<'a>,
    pub(crate) stops: TextIndex<'a>,
    pub(crate) places: &'a [u32],
    ghost placed: { length places.now ≡ length stops },
}
