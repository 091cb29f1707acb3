//! The tables of a feed, and why a feed is refused.
ghost use Rattle.std.specs.Prelude.{◌≡◌};
ghost use Rattle.csv_rows.specs.FeedTables.{file_name};

use crate::columns::Column;
use plan_model::NoMemory;
use std::alloc::{AllocError, AllocFailed};

/// A table of a feed (GTFS Schedule reference), in the order in which they are read.
#[derive(Clone, Copy, Debug, PartialEq, Eq)]
pub enum Table {
    /// `stops.txt`: the stops and stations.
    Stops,
    /// `routes.txt`: the routes, each with its means of transport.
    Routes,
    /// `trips.txt`: the trips, each of a route and a service.
    Trips,
    /// `stop_times.txt`: when each trip arrives at its stops and departs from them.
    StopTimes,
    /// `frequencies.txt`: trips that run again and again.
    Frequencies,
    /// `calendar.txt`: the weekdays on which a service runs, from a first day to a last one.
    Calendar,
    /// `calendar_dates.txt`: the days that are added to a service or removed.
    CalendarDates,
    /// `transfers.txt`: what it takes to change between two stops.
    Transfers,
}

impl Table {
    /// The name of its file.
    pub fn file_name(self) -> &'static str
        ensures { result.now ≡ file_name self }
    {
        match self {
            Table::Stops => "stops.txt",
            Table::Routes => "routes.txt",
            Table::Trips => "trips.txt",
            Table::StopTimes => "stop_times.txt",
            Table::Frequencies => "frequencies.txt",
            Table::Calendar => "calendar.txt",
            Table::CalendarDates => "calendar_dates.txt",
            Table::Transfers => "transfers.txt",
        }
    }
}

/// Why a feed is refused. A line is the number of a record; the header is line 1.
#[derive(Clone, Copy, Debug, PartialEq, Eq)]
pub enum FeedFault {
    /// Opening the file or a read failed.
    Read(Table),
    /// The file has more bytes than may be read.
    TooLong(Table),
    /// The file of a required table is absent.
    MissingTable(Table),
    /// The header of a required column is absent, the first one of these.
    MissingColumn(Table, Column),
    /// The field of this line is not of its form.
    BadField(Table, u64, Column),
    /// The field of this line names no row of the table that it refers to.
    UnknownKey(Table, u64, Column),
    /// An earlier line has the key of this line.
    DuplicateKey(Table, u64),
    /// The row of this line departs before it arrives, or arrives before the row before it in its trip departs.
    BackwardTime(u64),
    /// The table has this number of rows, more than may be read.
    TooManyRows(Table, u64),
    /// There was no memory.
    NoMemory,
}

impl From<NoMemory> for FeedFault {
    ghost use Rattle.std.specs.Prelude.{◌≡◌};
    ghost use Rattle.csv_rows.specs.declared.feed_tables.FeedFault.TheVariants.{NoMemory as NoMemoryFault};

    ghost from_gives = { λ _ fault. fault ≡ NoMemoryFault };

    fn from(_: NoMemory) -> Self {
        FeedFault::NoMemory
    }
}

impl From<AllocError> for FeedFault {
    ghost use Rattle.std.specs.Prelude.{◌≡◌};
    ghost use Rattle.csv_rows.specs.declared.feed_tables.FeedFault.TheVariants.{NoMemory as NoMemoryFault};

    ghost from_gives = { λ _ fault. fault ≡ NoMemoryFault };

    fn from(_: AllocError) -> Self {
        FeedFault::NoMemory
    }
}

impl<T: Drop> From<AllocFailed<T>> for FeedFault {
    ghost use Rattle.std.specs.Prelude.{◌≡◌};
    ghost use Rattle.csv_rows.specs.declared.feed_tables.FeedFault.TheVariants.{NoMemory as NoMemoryFault};

    ghost from_gives = { λ _ fault. fault ≡ NoMemoryFault };

    fn from(_: AllocFailed<T>) -> Self {
        FeedFault::NoMemory
    }
}
