//! The names of places and runs.
ghost use Rattle.std.specs.Prelude.{◌≡◌, ◌++◌, [], length, string_bytes, OnOk, IfOk};
ghost use Rattle.connections.specs.FeedRuns.{IsSmallRepeat};
ghost use Rattle.connections.specs.FeedNetworks.{start_text, IsRunName, AreRunNames};

use crate::feed_window::FeedWindow;
use crate::repeats::Repeat;
use crate::window_runs::{FeedRun, WindowRuns};
use clock_text::write_date;
use itoa::Buffer;
use plan_model::{Names, NoMemory};
use std::alloc::Global;

/// Adds how a run starts, where a row of frequencies says so: an at sign, its departure from the first kept row in seconds of
/// the service day, a point, and the line of the row.
fn push_start(name: &mut String, repeat: Option<Repeat>) -> Result<(), NoMemory>
    ensures text { OnOk result (string_bytes name.new ≡ string_bytes name.old ++ start_text repeat) }
    ensures small { IsSmallRepeat repeat }
{
    let Some(repeat) = repeat else {
        return Ok(());
    };
    let mut digits = Buffer::new();
    name.push_str("@")?;
    name.push_str(digits.format(repeat.departure))?;
    name.push_str(".")?;
    name.push_str(digits.format(repeat.line))?;
    Ok(())
}

/// The name of a run: its service date as YYYYMMDD, how it starts, a colon, and the id of its trip.
fn run_name(alloc: Global, named: &FeedRun<'_>) -> Result<String, NoMemory>
    ensures name { IfOk result (λ name. IsRunName named.now.feed.now named.now.run (string_bytes name)) }
    ensures small { IfOk result (λ name. IsSmallRepeat named.now.run.repeat) }
{
    let run = named.run;
    let date = write_date(run.origin.day.number);
    match std::str::from_utf8(&date) {
        Ok(date) => {
            let mut name = String::from_str(alloc, date)?;
            push_start(&mut name, run.repeat)?;
            name.push_str(":")?;
            name.push_str(named.feed.trip_id(run.trip))?;
            Ok(name)
        }
        Err(_) => unreachable!(),
    }
}

/// The ids of the stops as the names of places, with no runs.
fn place_names(alloc: Global, trips: &FeedWindow<'_>) -> Result<Names, NoMemory>
    ensures places { IfOk result (λ names. names.places ≡ trips.now.feed.now.stop_ids) }
    ensures runs { IfOk result (λ names. names.runs ≡ []) }
{
    let mut names = Names::with_key(alloc, trips.feed.hash_key());
    for stop in 0..trips.stops {
        names.push_place(trips.feed.stop_id(stop))?;
    }
    Ok(names)
}

/// The names of the places of a feed and of these runs.
pub(crate) fn names_of(alloc: Global, runs: &WindowRuns<'_>) -> Result<Names, NoMemory>
    ensures places { IfOk result (λ names. names.places ≡ runs.now.trips.now.feed.now.stop_ids) }
    ensures runs { IfOk result (λ names.
        AreRunNames runs.now.trips.now.feed.now runs.now.list.now (length runs.now.list.now) names.runs) }
{
    let feed = runs.trips.feed;
    let mut names = place_names(alloc, runs.trips)?;
    for r in 0..runs.list.len() {
        let run = runs.list[r];
        let name = run_name(alloc, &FeedRun { feed, run })?;
        names.push_run(name.as_str())?;
    }
    Ok(names)
}
