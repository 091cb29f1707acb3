//! The lines of faults, by the names of their timetable.
ghost use Rattle.std.specs.Prelude.{◌≡◌, ◌<◌, ◌≤◌, ◌++◌, length, Option as Optional, IfOk, IfSome, IfNone, codes};
ghost use Rattle.journey_model.specs.FaultLines.{fault_text, line_of, IsFormatted};
ghost use Rattle.journey_model.specs.Sites.{last_printable, arrival_text, step_text, site_of, site_text, site_text_in, HasSite, IsSiteOf, NamedParts};
ghost use Rattle.journey_model.specs.Known.{known_in, named_parts};

use crate::faults::{Fault, Input, Site};
use clock_text::write_moment;
use csv_rows::Table;
use plan_model::{ConnectionId, Moment, Names, NoMemory, PlaceId, Timetable};
use std::alloc::Global;

/// A line with a place and a moment behind it.
fn with_arrival(
    line: Vec<u8>,
    names: &Names,
    place: PlaceId,
    moment: Moment,
) -> Result<Vec<u8>, NoMemory>
    requires place { place.0 < length names.now.places }
    requires moment { moment.0 ≤ last_printable }
    ensures { IfOk result (λ text.
        text.items ≡ line.items ++ arrival_text names.now place moment) }
{
    let moment = write_moment(moment);
    let mut line = line;
    line.extend_from_slice(b" at ")?;
    line.extend_from_slice(names.place_name(place).as_bytes())?;
    line.extend_from_slice(b" at ")?;
    line.extend_from_slice(moment.as_slice())?;
    Ok(line)
}

/// A line with the run and the step of a connection behind it.
#[tactic(auto, using(printed_rows::proofs::Lines::name_is, std::proofs::lemmas::Grind::common_steps))]
fn with_step(
    alloc: Global,
    line: Vec<u8>,
    known: &Timetable,
    id: ConnectionId,
) -> Result<Vec<u8>, NoMemory>
    requires { IsSiteOf (named_parts known.now) (Site.Connection id) }
    ensures { IfOk result (λ text.
        text.items ≡ line.items ++ step_text (named_parts known.now) id.0) }
{
    let connection = known.network.get(id);
    let step = format!(in alloc; "{}", connection.step)?;
    let mut line = line;
    line.extend_from_slice(b" at ")?;
    line.extend_from_slice(known.names.run_name(connection.run).as_bytes())?;
    line.extend_from_slice(b" step ")?;
    line.extend_from_slice(step.as_bytes())?;
    Ok(line)
}

/// A line with the text of a site behind it.
fn with_site(
    alloc: Global,
    line: Vec<u8>,
    site: Site,
    known: &Timetable,
) -> Result<Vec<u8>, NoMemory>
    requires { IsSiteOf (named_parts known.now) site }
    ensures { IfOk result (λ text.
        text.items ≡ line.items ++ site_text (named_parts known.now) site) }
{
    match site {
        Site::Arrival(place, moment) => with_arrival(line, &known.names, place, moment),
        Site::Connection(id) => with_step(alloc, line, known, id),
    }
}

/// What a fault is, and where in the timetable, if this is known.
fn front_of(alloc: Global, fault: Fault, known: Option<&Timetable>) -> Result<Vec<u8>, NoMemory>
    requires { HasSite (known_in known) fault }
    ensures { IfOk result (λ text. text.items
        ≡ (codes "meat: " ++ fault_text fault) ++ site_text_in (known_in known.entry) (site_of fault)) }
{
    let line = format!(in alloc; "meat: {fault}")?.into_bytes();
    match (fault.site(), known) {
        (Some(site), Some(known)) => with_site(alloc, line, site, known),
        _ => Ok(line),
    }
}

/// The line of a fault: what it is, and where in the timetable, which is known if the fault is at a place of one.
pub fn fault_line(
    alloc: Global,
    fault: Fault,
    known: Option<&Timetable>,
) -> Result<Vec<u8>, NoMemory>
    requires { HasSite (known_in known) fault }
    ensures { IfOk result (λ line. line.items ≡ line_of (known_in known.entry) fault) }
{
    let mut line = front_of(alloc, fault, known)?;
    line.extend_from_slice(b"\n")?;
    Ok(line)
}

/// The line of an input that cannot be read, which is printed without memory.
fn unread_line(input: Input) -> &'static str
    ensures { (known : Optional NamedParts) → result.now ≡ line_of known (Fault.Read input) }
{
    match input {
        Input::Feed(Table::Stops) => "meat: cannot read stops.txt\n",
        Input::Feed(Table::Routes) => "meat: cannot read routes.txt\n",
        Input::Feed(Table::Trips) => "meat: cannot read trips.txt\n",
        Input::Feed(Table::StopTimes) => "meat: cannot read stop_times.txt\n",
        Input::Feed(Table::Frequencies) => "meat: cannot read frequencies.txt\n",
        Input::Feed(Table::Calendar) => "meat: cannot read calendar.txt\n",
        Input::Feed(Table::CalendarDates) => "meat: cannot read calendar_dates.txt\n",
        Input::Feed(Table::Transfers) => "meat: cannot read transfers.txt\n",
        Input::Cut => "meat: cannot read cut file\n",
        Input::Delays => "meat: cannot read delay file\n",
        Input::Graph => "meat: cannot read graph file\n",
        Input::Proof => "meat: cannot read proof file\n",
    }
}

/// The line of a fault that is printed without memory; `None` for every fault but `Read`, `Write` and `NoMemory`.
pub fn known_line(fault: Fault) -> Option<&'static str>
    ensures line { IfSome result (λ line. (known : Optional NamedParts) → line.now ≡ line_of known fault) }
    ensures known { IfNone result (IsFormatted fault) }
{
    match fault {
        Fault::Read(input) => Some(unread_line(input)),
        Fault::Write => Some("meat: cannot write\n"),
        Fault::NoMemory => Some("meat: out of memory\n"),
        Fault::Words(_)
        | Fault::Feed(_)
        | Fault::Cut(_)
        | Fault::Missing(_)
        | Fault::Delays(_)
        | Fault::UnknownStop(_)
        | Fault::Limit(_, _)
        | Fault::NoSafe
        | Fault::GraphFile(_)
        | Fault::Replay(_)
        | Fault::ProofFile(_)
        | Fault::ProofFails(_)
        | Fault::Unsafe(_, _) => None,
    }
}
