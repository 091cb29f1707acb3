//! How much is read.
ghost use Rattle.std.specs.Prelude.{◌≡◌, ◌≤◌};
ghost use Rattle.csv_rows.specs.declared.limits.TheConstants.{MOST_BYTES, MOST_STOPS, MOST_ROUTES, MOST_TRIPS, MOST_STOP_TIMES, MOST_FREQUENCIES, MOST_CALENDAR, MOST_CALENDAR_DATES, MOST_TRANSFERS, MOST_CUT_ROWS, MOST_CONNECTIONS, MOST_ENTRIES};

use crate::feed_tables::Table;

// The limits with which the largest accepted feed fits in 8 GB of memory.
const MOST_BYTES: u64 = 1 << 30;

const MOST_STOPS: u64 = 1 << 20;

const MOST_ROUTES: u64 = 1 << 16;

const MOST_TRIPS: u64 = 1 << 22;

const MOST_STOP_TIMES: u64 = 1 << 25;

const MOST_FREQUENCIES: u64 = 1 << 16;

const MOST_CALENDAR: u64 = 1 << 20;

const MOST_CALENDAR_DATES: u64 = 1 << 24;

const MOST_TRANSFERS: u64 = 1 << 22;

const MOST_CUT_ROWS: u64 = 1 << 23;

const MOST_CONNECTIONS: u64 = 1 << 23;

const MOST_ENTRIES: u64 = 1 << 26;

/// The most that is read: bytes of one file, rows of each table, and connections of a window and their entries. None is above
/// the standard one.
#[derive(Clone, Copy)]
pub struct Limits {
    /// Bytes of one file.
    pub bytes: u64,
    /// Rows of `stops.txt`.
    pub stops: u64,
    /// Rows of `routes.txt`.
    pub routes: u64,
    /// Rows of `trips.txt`.
    pub trips: u64,
    /// Rows of `stop_times.txt`.
    pub stop_times: u64,
    /// Rows of `frequencies.txt`.
    pub frequencies: u64,
    /// Rows of `calendar.txt`.
    pub calendar: u64,
    /// Rows of `calendar_dates.txt`.
    pub calendar_dates: u64,
    /// Rows of `transfers.txt`.
    pub transfers: u64,
    /// Rows of a cut file.
    pub cut_rows: u64,
    /// Connections of a window.
    pub connections: u64,
    /// Entries of a window: pairs of a connection and a way into the place that it leaves.
    pub entries: u64,
    pub ghost bytes_in: { bytes ≤ MOST_BYTES },
    pub ghost stops_in: { stops ≤ MOST_STOPS },
    pub ghost routes_in: { routes ≤ MOST_ROUTES },
    pub ghost trips_in: { trips ≤ MOST_TRIPS },
    pub ghost stop_times_in: { stop_times ≤ MOST_STOP_TIMES },
    pub ghost frequencies_in: { frequencies ≤ MOST_FREQUENCIES },
    pub ghost calendar_in: { calendar ≤ MOST_CALENDAR },
    pub ghost calendar_dates_in: { calendar_dates ≤ MOST_CALENDAR_DATES },
    pub ghost transfers_in: { transfers ≤ MOST_TRANSFERS },
    pub ghost cut_rows_in: { cut_rows ≤ MOST_CUT_ROWS },
    pub ghost connections_in: { connections ≤ MOST_CONNECTIONS },
    pub ghost entries_in: { entries ≤ MOST_ENTRIES },
}

impl Limits {
    ghost use Rattle.csv_rows.specs.Limits.{standard, rows_of};

    /// The limits with which the largest accepted feed fits in 8 GB of memory.
    pub fn standard() -> Limits
        ensures { result ≡ standard }
    {
        Limits {
            bytes: MOST_BYTES,
            stops: MOST_STOPS,
            routes: MOST_ROUTES,
            trips: MOST_TRIPS,
            stop_times: MOST_STOP_TIMES,
            frequencies: MOST_FREQUENCIES,
            calendar: MOST_CALENDAR,
            calendar_dates: MOST_CALENDAR_DATES,
            transfers: MOST_TRANSFERS,
            cut_rows: MOST_CUT_ROWS,
            connections: MOST_CONNECTIONS,
            entries: MOST_ENTRIES,
        }
    }

    /// The most rows of a table.
    pub fn rows_of(&self, table: Table) -> u64
        ensures { result ≡ rows_of self.now table }
    {
        match table {
            Table::Stops => self.stops,
            Table::Routes => self.routes,
            Table::Trips => self.trips,
            Table::StopTimes => self.stop_times,
            Table::Frequencies => self.frequencies,
            Table::Calendar => self.calendar,
            Table::CalendarDates => self.calendar_dates,
            Table::Transfers => self.transfers,
        }
    }
}
