//! The table of frequencies, loaded and read.
ghost use Rattle.std.specs.Prelude.{◌≡◌, ◌≤◌, length, Ok, IfOk};
ghost use Rattle.std.specs.List.Sorted.{IsNonDecreasing};
ghost use Rattle.csv_rows.specs.declared.feed_tables.Table.TheVariants.{Frequencies as FrequenciesTable};
ghost use Rattle.table_files.specs.Reading.{ReadsTable};
ghost use Rattle.table_files.specs.Loading.{IsOfSomeTable};
ghost use Rattle.trip_frequencies.specs.FrequencyBounds.{most_frequencies};
ghost use Rattle.trip_frequencies.specs.Frequencies.{frequencies_from, fault_of_frequencies, AreFrequencies};
ghost use Rattle.trip_frequencies.specs.Repeats.{all_repeats_in};

use crate::repeats::{Repeats, repeats_from};
use csv_rows::{FeedFault, Ids, Limits, Table};
use file_ports::Files;
use std::alloc::Global;
use table_files::read_table;

/// The rows of `frequencies.txt` of the feed in this folder, by trip, or the first fault of the table. A table that is absent,
/// or has no record, has no row. The faults come in this order: those of `read_table`; `MissingColumn`; `BadField`, and
/// `UnknownKey` of a trip that is none of these, by line and column; `DuplicateKey` of a row with the trip and the start of
/// an earlier one, by line.
pub fn load_frequencies<F: Files>(
    alloc: Global,
    files: &mut F,
    folder: &str,
    limits: &Limits,
    trips: &Ids,
) -> Result<Repeats, FeedFault>
    ensures reads { ReadsTable FrequenciesTable folder.now limits.now (F.state files.old) (F.state files.new)
        (λ loaded. frequencies_from loaded trips.now) (λ read r. AreFrequencies trips.now read
        (all_repeats_in r.trips.items r.rows.items (length trips.now))) result }
    ensures sound { IfOk result (λ r. IsOfSomeTable (fault_of_frequencies trips.now) (λ l.
        AreFrequencies trips.now (Ok l) (all_repeats_in r.trips.items r.rows.items (length trips.now)))) }
    ensures ordered { IfOk result (λ r. IsNonDecreasing r.trips.items) }
    ensures paired { IfOk result (λ r. length r.rows.items ≡ length r.trips.items) }
    ensures few { IfOk result (λ r. length r.rows.items ≤ most_frequencies) }
{
    let loaded = read_table(alloc, files, folder, Table::Frequencies, limits)?;
    repeats_from(alloc, &loaded, trips)
}
