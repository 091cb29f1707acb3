//! Services and the days on which they run.
ghost use Rattle.std.specs.Prelude.{◌≡◌, Some, IfOk, IsOkAnd, ◌<◌, ◌+ℤ◌, pos, filter};
ghost use Rattle.table_files.specs.Reading.{ReadsWanted};
ghost use Rattle.service_days.specs.Services.{period_runs, runs, runs_at};
ghost use Rattle.service_days.specs.Days.{day_count, days_between};
ghost use Rattle.service_days.specs.Calendars.{calendars_in, RunsBy, RunsBySome, IsCalendarFault};

use crate::exceptions::{Exception, has};
use crate::periods::Period;
use crate::tables::{LoadedCalendar, load_calendar, load_dates};
use csv_rows::{FeedFault, Ids, Limits, Table};
use file_ports::Files;
use plan_model::{HashKey, List, NoMemory, TextList};
use std::alloc::Global;
use std::collections::HashSet;
use std::marker::Model;

/// The services of a feed, and the days on which each runs.
pub struct Services {
    ids: Ids,
    periods: Vec<Period>,
    exceptions: HashSet<Exception, HashKey>,
}

impl Drop for Services {
    /// Drops its parts here, so that a caller drops one value.
    fn drop(self) {
        let Services {
            ids,
            periods,
            exceptions,
        } = self;
    }
}

impl Model for Services {
    ghost use Rattle.service_days.specs.Services.{ServiceParts};

    ghost Value = { ServiceParts };

    ghost view = { λ s. record {
      ids = s.ids;
      periods = s.periods.items;
      exceptions = s.exceptions.keys;
    } };
}

/// Whether the period of the service of this number lets it run on a day.
fn period_runs(periods: &[Period], service: u32, day: i32) -> bool
    ensures { result ≡ period_runs periods.now day (Some service) }
{
    match periods.get(service as usize) {
        Some(period) => period.runs_on(day),
        None => false,
    }
}

impl Services {
    /// Reads `calendar.txt` and then `calendar_dates.txt` of the feed in this folder, or answers the first of their faults.
    /// The faults of either come in this order: those of `read_table`; `MissingColumn`; `BadField`, by line and column; and of
    /// `calendar.txt` alone `DuplicateKey`, by line. Each may be absent or without a record, but not both: that is
    /// `MissingTable` of `calendar.txt`, which comes after the faults of either.
    pub fn read<F: Files>(
        alloc: Global,
        files: &mut F,
        folder: &str,
        limits: &Limits,
    ) -> Result<Services, FeedFault>
        ensures reads { ReadsWanted folder.now (F.state files.old) (F.state files.new)
            (λ m. calendars_in m folder.now limits.now) (λ read s. IsOkAnd read (RunsBy (runs s)))
            IsCalendarFault result }
        ensures sound { IfOk result (λ s. RunsBySome (runs s)) }
    {
        let LoadedCalendar { missing, calendar } = load_calendar(alloc, files, folder, limits)?;
        let dates = load_dates(alloc, files, folder, limits, calendar.ids)?;
        if missing && dates.missing {
            return Err(FeedFault::MissingTable(Table::Calendar));
        }
        Ok(Services {
            ids: dates.numbered.ids,
            periods: calendar.periods,
            exceptions: dates.numbered.exceptions,
        })
    }

    /// The services that the calendars name, in the order of their numbers.
    pub fn services(&self) -> &TextList
        ensures { result.now ≡ self.now.ids }
    {
        self.ids.texts()
    }

    /// Whether a service runs on a day, which is a day number from 1970-01-01: a row of `calendar.txt` has the service, its
    /// range holds the day, both ends included, and the flag of the day's weekday is 1, or an exception adds the day; and
    /// no exception removes it. A service that is named nowhere never runs.
    pub fn runs_on(&self, service: &str, day: i32) -> bool
        ensures { result ≡ runs self.now service.now day }
    {
        self.runs_at(self.ids.number(service), day)
    }

    /// Whether the service of this number runs on a day, as `runs_on` says it of its name. One without a number, as it is
    /// named nowhere, never runs.
    pub fn runs_at(&self, service: Option<u32>, day: i32) -> bool
        ensures { result ≡ runs_at self.now.periods self.now.exceptions day service }
    {
        let Some(service) = service else {
            return false;
        };
        let removed = Exception {
            service,
            day,
            adds: false,
        };
        if has(&self.exceptions, &removed) {
            return false;
        }
        let added = Exception {
            service,
            day,
            adds: true,
        };
        has(&self.exceptions, &added) || period_runs(self.periods.as_slice(), service, day)
    }

    /// The days from `first` to `last`, both included, on which a service runs, rising. They are day numbers from
    /// 1970-01-01. There is none if `first` is after `last`.
    pub fn days(
        &self,
        alloc: Global,
        service: &str,
        first: i32,
        last: i32,
    ) -> Result<List<i32>, NoMemory>
        ensures { IfOk result (λ days.
            days ≡ filter (runs self.now service.now) (days_between first last)) }
    {
        let number = self.ids.number(service);
        let mut days: List<i32> = List::new(alloc);
        for n in 0..day_count(first, last) {
            let day = day_after(first, last, n);
            if self.runs_at(number, day) {
                days.push(day)?;
            }
        }
        Ok(days)
    }
}

/// How many days there are from a first to a last one.
fn day_count(first: i32, last: i32) -> u64
    ensures { result ≡ day_count first last }
{
    if first <= last {
        (i64::from(last) - i64::from(first)).unsigned_abs() + 1
    } else {
        0
    }
}

/// The day that is `n` days after the first.
fn day_after(first: i32, last: i32, n: u64) -> i32
    requires { n < day_count first last }
    ensures { result ≡ first +ℤ pos n }
{
    (i64::from(first) + n as i64) as i32
}
