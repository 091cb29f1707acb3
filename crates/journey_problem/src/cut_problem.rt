//! A journey over a cut file.
ghost use Rattle.std.specs.Prelude.{◌≡◌, ◌≢◌, ℕ, List as Bytes, None, Some, IfSome, IfOk, IfErr, OnOk};
ghost use Rattle.cut_file.specs.CutNetworks.{IsCutNetwork};
ghost use Rattle.cut_file.specs.Read.{IsCutRead};
ghost use Rattle.file_ports.specs.Ports.{file_at};
ghost use Rattle.command_line.specs.Shown.{journey_shown};
ghost use Rattle.command_line.specs.Jobs.{SourceModel, CutFile, source_or_target};
ghost use Rattle.journey_model.specs.Faults.{IsFirst, MayBeUnread, unread_input};
ghost use Rattle.journey_problem.specs.Files.{Records, OwnPaths, path_by, HasCauses};
ghost use Rattle.journey_problem.specs.FaultsBeforeSearch.{IsBeforeSearch};
ghost use Rattle.journey_problem.specs.CutProblems.{cut_problem_fault, IsCutProblem, HasCutTimetable, IsNamed, stop_fault};
ghost use Rattle.journey_problem.specs.InputTables.{HasCut, IsCutOfSome};

use crate::inputs::{read_cut_file, read_delay_file};
use crate::stops::first_which;
use command_line::Journey;
use csv_rows::Limits;
use cut_file::CutTable;
use delay_table::DelayTable;
use file_ports::Files;
use journey_model::{Ends, Fault, Input, Problem, Which};
use plan_model::{Names, Timetable};
use std::alloc::Global;

/// The places that are named as the stops of a journey.
fn ends_of(names: &Names, journey: &Journey) -> Result<Ends, Fault>
    ensures source { IfOk result (λ ends.
        IsNamed names.now ends.source.0 (source_or_target (journey_shown journey.now))) }
    ensures target { IfOk result (λ ends. IsNamed names.now ends.target.0 journey.now.to.now) }
    ensures none { OnOk result (stop_fault names.now.places
        (journey_shown journey.now).from journey.now.to.now ≡ None) }
    ensures fault { IfErr result (λ fault. stop_fault names.now.places
        (journey_shown journey.now).from journey.now.to.now ≡ Some fault) }
    ensures early { (timetable : SourceModel) → IfErr result (IsBeforeSearch timetable) }
    ensures read { IfErr result (λ fault. unread_input fault ≡ None) }
{
    let Some(source) = names.place(journey.source_or_target()) else {
        return Err(Fault::UnknownStop(first_which(journey)));
    };
    let Some(target) = names.place(journey.to) else {
        return Err(Fault::UnknownStop(Which::To));
    };
    Ok(Ends { source, target })
}

/// The problem of a journey in what its files hold.
fn problem_in(
    alloc: Global,
    cut: &CutTable,
    delays: &DelayTable,
    journey: &Journey,
) -> Result<Problem, Fault>
    ensures network { IfOk result (λ p. (table : Records)
        → IsCutRead table cut.now.runs cut.now.places cut.now.rows cut.now.keys
        → IsCutNetwork table delays.now p.timetable.network p.timetable.names) }
    ensures source { IfOk result (λ p.
        IsNamed p.timetable.names p.source.0 (source_or_target (journey_shown journey.now))) }
    ensures target { IfOk result (λ p.
        IsNamed p.timetable.names p.target.0 journey.now.to.now) }
    ensures none { OnOk result
        (stop_fault cut.now.places (journey_shown journey.now).from journey.now.to.now ≡ None) }
    ensures fault { IfErr result (λ fault. fault ≢ Fault.NoMemory
        → stop_fault cut.now.places (journey_shown journey.now).from journey.now.to.now ≡ Some fault) }
    ensures early { (timetable : SourceModel) → IfErr result (IsBeforeSearch timetable) }
    ensures read { IfErr result (λ fault. unread_input fault ≡ None) }
{
    let (network, names) = cut.network(alloc, delays)?;
    let timetable = Timetable::new(network, names);
    let ends = ends_of(&timetable.names, journey)?;
    Ok(Problem::between(ends, timetable))
}

/// The problem of a journey over a cut file that was read.
fn problem_after<F: Files>(
    alloc: Global,
    files: &mut F,
    cut: &CutTable,
    journey: &Journey,
    limits: &Limits,
) -> Result<Problem, Fault>
    requires sound { IsCutOfSome cut.now }
    ensures problem { IfSome (F.state files.old).files (λ m. IfOk result (λ p. (path : Bytes ℕ)
        → HasCut limits.now (file_at m path) cut.now
        → IsCutProblem limits.now m path (journey_shown journey.now) p)) }
    ensures fault { IfSome (F.state files.old).files (λ m. IfErr result (λ fault. (path : Bytes ℕ)
        → HasCut limits.now (file_at m path) cut.now
        → IsFirst (cut_problem_fault limits.now m path (journey_shown journey.now)) fault)) }
    ensures early { (timetable : SourceModel) → IfErr result (IsBeforeSearch timetable) }
    ensures own { IfErr result (MayBeUnread Input.Delays) }
    ensures timetable { IfOk result (HasCutTimetable (journey_shown journey.now)) }
    ensures causes { HasCauses (λ other. Some journey.now.delays.now)
        (F.state files.old) (F.state files.new) result }
{
    match read_delay_file(alloc, files, journey.delays, limits) {
        Err(fault) => Err(fault),
        Ok(delays) => problem_in(alloc, cut, &delays, journey),
    }
}

/// The problem of a journey over the cut file of this path, whose timetable is that file.
pub(crate) fn cut_problem<F: Files>(
    alloc: Global,
    files: &mut F,
    path: &str,
    journey: &Journey,
    limits: &Limits,
) -> Result<Problem, Fault>
    ensures problem { IfSome (F.state files.old).files (λ m. IfOk result
        (IsCutProblem limits.now m path.now (journey_shown journey.now))) }
    ensures fault { IfSome (F.state files.old).files (λ m. IfErr result
        (IsFirst (cut_problem_fault limits.now m path.now (journey_shown journey.now)))) }
    ensures early { IfErr result (IsBeforeSearch (CutFile path.now)) }
    ensures timetable { IfOk result (HasCutTimetable (journey_shown journey.now)) }
    ensures causes { (own : OwnPaths) → HasCauses
        (path_by (CutFile path.now) (journey_shown journey.now) own)
        (F.state files.old) (F.state files.new) result }
{
    match read_cut_file(alloc, files, path, limits) {
        Err(fault) => Err(fault),
        Ok(cut) => problem_after(alloc, files, &cut, journey, limits),
    }
}
