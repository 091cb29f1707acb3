//! The texts of the tables.
ghost use Rattle.std.specs.Prelude.{◌≡◌, ◌++◌, IfOk, OnOk, string_bytes};
ghost use Rattle.feed_maker.specs.MadeTables.{joined, hub_row, own_rows, stops_text, routes_text, trip_rows, trips_text, calendar_text, delays_text};

use crate::lines::{HUBS, LAST, Line, Lines, RUNS};
use crate::names::{Route, Stop, Trip};
use std::alloc::{AllocError, Global};

/// Writes the rows of the hubs.
#[tactic(auto, using(crate::proofs::JoinedLemmas::joined_steps))]
fn write_hubs(text: &mut String) -> Result<(), AllocError>
    ensures { OnOk result (string_bytes text.new ≡ string_bytes text.old ++ joined hub_row 10) }
{
    for hub in 0..HUBS {
        let stop = Stop::Hub(hub);
        writeln!(text, "{stop}")?;
    }
    Ok(())
}

/// Writes the rows of the stops of a line's own.
#[tactic(auto, using(crate::proofs::JoinedLemmas::joined_steps), unfolding(crate::specs::MadeTables::own_rows))]
fn write_own_stops(text: &mut String, line: u32) -> Result<(), AllocError>
    ensures { OnOk result (string_bytes text.new ≡ string_bytes text.old ++ own_rows line) }
{
    for index in 0..LAST - 1 {
        let stop = Stop::Own(line, index + 1);
        writeln!(text, "{stop}")?;
    }
    Ok(())
}

/// The stops of `lines` lines.
#[tactic(auto, using(crate::proofs::JoinedLemmas::joined_steps), unfolding(crate::specs::MadeTables::stops_text))]
pub fn stops(alloc: Global, lines: u32) -> Result<String, AllocError>
    ensures { IfOk result (λ text. string_bytes text ≡ stops_text lines) }
{
    let mut text = String::from_str(alloc, "stop_id\n")?;
    write_hubs(&mut text)?;
    for line in 0..lines {
        write_own_stops(&mut text, line)?;
    }
    Ok(text)
}

/// The routes of `lines` lines.
#[tactic(auto, using(crate::proofs::JoinedLemmas::joined_steps), unfolding(crate::specs::MadeTables::routes_text))]
pub fn routes(alloc: Global, lines: u32) -> Result<String, AllocError>
    ensures { IfOk result (λ text. string_bytes text ≡ routes_text lines) }
{
    let mut text = String::from_str(alloc, "route_id,route_type\n")?;
    for line in 0..lines {
        let route = Route(line);
        let route_type = line % 4;
        writeln!(text, "{route},{route_type}")?;
    }
    Ok(text)
}

/// Writes the rows of a line's trips.
#[tactic(auto, using(crate::proofs::JoinedLemmas::joined_steps), unfolding(crate::specs::MadeTables::trip_rows))]
fn write_trips(text: &mut String, line: Line) -> Result<(), AllocError>
    ensures { OnOk result (string_bytes text.new ≡ string_bytes text.old ++ trip_rows line.number) }
{
    let route = Route(line.number);
    for run in 0..RUNS {
        let trip = Trip { line, run };
        writeln!(text, "{route},D,{trip}")?;
    }
    Ok(())
}

/// The trips of `lines` lines.
#[tactic(auto, using(crate::proofs::JoinedLemmas::joined_steps), unfolding(crate::specs::MadeTables::trips_text))]
pub fn trips(alloc: Global, lines: Lines) -> Result<String, AllocError>
    ensures { IfOk result (λ text. string_bytes text ≡ trips_text lines.count) }
{
    let mut text = String::from_str(alloc, "route_id,service_id,trip_id\n")?;
    for line in 0..lines.count {
        write_trips(&mut text, Line { number: line })?;
    }
    Ok(text)
}

/// The calendar: one service, on each day of 2024.
#[tactic(auto, unfolding(crate::specs::MadeTables::calendar_text))]
pub fn calendar() -> &'static str
    ensures { result.now ≡ calendar_text }
{
    "service_id,monday,tuesday,wednesday,thursday,friday,saturday,sunday,start_date,end_date\n\
     D,1,1,1,1,1,1,1,20240101,20241231\n"
}

/// The delays of any route, and those of the routes of types 1 and 2.
#[tactic(auto, unfolding(crate::specs::MadeTables::delays_text))]
pub fn delays() -> &'static str
    ensures { result.now ≡ delays_text }
{
    "class,delay,weight\n\
     *,0,8000\n\
     *,300,1500\n\
     *,900,500\n\
     1,0,9000\n\
     1,60,1000\n\
     2,0,7000\n\
     2,120,2000\n\
     2,600,1000\n"
}
