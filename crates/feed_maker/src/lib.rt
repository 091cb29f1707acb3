//! A timetable made by rule: lines between ten hubs, as the files of a feed and its delays.
//!
//! A call that takes an allocator may answer that there is no memory, as `NoMemory` or as the variant of that name; then
//! what it was lent is as it was, unless its own comment says otherwise.
#![tactic(auto)]

ghost use Rattle.std.specs.Prelude.{◌≡◌, ◌≤◌, None, IfOk};
ghost use Rattle.file_ports.specs.Steady.{folder_of, open_of, piece_of};
ghost use Rattle.feed_maker.specs.MadeTables.{made, other_files, SameFolder};

mod files;
mod lines;
mod names;
mod stop_times;
mod tables;

use file_ports::SteadyFiles;
pub use files::MadeFiles;
use lines::Lines;
use plan_model::NoMemory;
use std::alloc::Global;

/// The most bytes that a read gives.
const PIECE: usize = 65_536;

/// The path of the stop times.
const STOP_TIMES: &str = "feed/stop_times.txt";

/// The files of a made timetable, but for the stop times.
fn other_files(alloc: Global, lines: Lines) -> Result<SteadyFiles, NoMemory>
    ensures files { IfOk result (λ files. SameFolder (other_files lines.count) (folder_of files)) }
    ensures piece { IfOk result (λ files. piece_of files ≡ 65536) }
    ensures closed { IfOk result (λ files. open_of files ≡ None) }
{
    let mut files = SteadyFiles::new(alloc, PIECE);
    let stops = tables::stops(alloc, lines.count)?;
    let routes = tables::routes(alloc, lines.count)?;
    let trips = tables::trips(alloc, lines)?;
    files.add("delays.csv", tables::delays().as_bytes())?;
    files.add("feed/calendar.txt", tables::calendar().as_bytes())?;
    files.add("feed/trips.txt", trips.as_bytes())?;
    files.add("feed/routes.txt", routes.as_bytes())?;
    files.add("feed/stops.txt", stops.as_bytes())?;
    Ok(files)
}

/// A feed of `size` lines in the folder `feed`, in the form of the GTFS Schedule reference, and the
/// delays of its classes in `delays.csv`, which is no part of that reference. No file is open,
/// and a read gives at most 65,536 bytes.
///
/// Line `a` goes from hub `a % 10` to hub `(a + 1 + a / 10 % 3) % 10`, over 19 stops of its own, in
/// 20 hops of `60 + 5 * (a % 7)` seconds each. It has a run every 15 minutes, 96 a day, the first at
/// `35 * a % 900` seconds after midnight, and its route is of type `a % 4`.
///
/// `NoMemory` comes only if there is no memory. `MadeFiles` are the same files in less of it.
#[tactic(auto, using(crate::proofs::FolderLemmas::folder_more, crate::proofs::FolderLemmas::stop_times_first))]
pub fn make(alloc: Global, size: u32) -> Result<SteadyFiles, NoMemory>
    requires low { 10 ≤ size }
    requires high { size ≤ 400 }
    ensures files { IfOk result (λ files. SameFolder (made size) (folder_of files)) }
    ensures piece { IfOk result (λ files. piece_of files ≡ 65536) }
    ensures closed { IfOk result (λ files. open_of files ≡ None) }
{
    let lines = Lines { count: size };
    let mut files = other_files(alloc, lines)?;
    let times = stop_times::stop_times(alloc, lines)?;
    files.add(STOP_TIMES, times.as_slice())?;
    Ok(files)
}
