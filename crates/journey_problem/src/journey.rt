//! The problem of a journey over its files.
ghost use Rattle.std.specs.Prelude.{IfSome, IfOk, IfErr};
ghost use Rattle.command_line.specs.Shown.{journey_shown};
ghost use Rattle.journey_problem.specs.FaultsBeforeSearch.{IsBeforeSearch};
ghost use Rattle.journey_problem.specs.Files.{OwnPaths, path_of, HasCauses};
ghost use Rattle.journey_problem.specs.Problems.{HasTimetable, IsProblem, IsProblemFault};

use crate::cut_problem::cut_problem;
use crate::feed_problem::feed_problem;
use command_line::{Journey, Source};
use csv_rows::Limits;
use file_ports::Files;
use journey_model::{Fault, Problem};
use std::alloc::Global;

/// The problem of a journey, or the first fault. The faults come in this order: those of the cut file, or of the tables of the
/// feed; those of the delay file; `UnknownStop` of `--from` and then of `--to`; and over a feed `Limit`, of the
/// connections of its window and then of their entries. `Read` comes in the turn of its file, and only if opening or reading
/// that file failed.
pub fn problem_of<F: Files>(
    alloc: Global,
    files: &mut F,
    journey: &Journey,
    limits: &Limits,
) -> Result<Problem, Fault>
    ensures problem { IfSome (F.state files.old).files (λ m. IfOk result
        (IsProblem limits.now m (journey_shown journey.now))) }
    ensures fault { IfSome (F.state files.old).files (λ m. IfErr result
        (IsProblemFault limits.now m (journey_shown journey.now))) }
    ensures early { IfErr result (IsBeforeSearch (journey_shown journey.now).timetable) }
    ensures sound { IfOk result
        (HasTimetable (journey_shown journey.now).timetable (journey_shown journey.now)) }
    ensures causes { (own : OwnPaths) → HasCauses
        (path_of (journey_shown journey.now) own)
        (F.state files.old) (F.state files.new) result }
{
    match journey.timetable {
        Source::Cut(path) => cut_problem(alloc, files, path, journey, limits),
        Source::Feed(folder, horizon) => {
            feed_problem(alloc, files, folder, horizon, journey, limits)
        }
    }
}
