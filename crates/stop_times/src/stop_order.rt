//! The order in which stops are passed.

use plan_model::NoMemory;
use std::alloc::Global;
use text_index::TextIndex;

/// The stop of the last row, and for each stop the one that came after it. The trips of a route pass the same stops, so what
/// came after a stop most often comes after it again.
#[derive(Drop)]
pub(crate) struct StopOrder {
    last: u32,
    after: Vec<u32>,
}

impl StopOrder {
    /// That of no row.
    pub(crate) fn new(alloc: Global, stops: &TextIndex<'_>) -> Result<StopOrder, NoMemory> {
        Ok(StopOrder {
            last: 0,
            after: vec![in alloc; 0; stops.len() as usize]?,
        })
    }

    /// A stop that may come next.
    pub(crate) fn expected(&self) -> u32 {
        match self.after.get(self.last as usize) {
            Some(stop) => *stop,
            None => 0,
        }
    }

    /// Keeps that this stop came after the last one.
    pub(crate) fn keep(&mut self, stop: u32) {
        let last = self.last as usize;
        if last < self.after.len() {
            self.after[last] = stop;
        }
        self.last = stop;
    }
}
