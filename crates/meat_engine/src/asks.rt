//! The answers to what the words ask about a journey, over its files.
ghost use Rattle.std.specs.Prelude.{◌≡◌, ◌≢◌, Some, IfOk, IfErr};
ghost use Rattle.command_line.specs.Jobs.{IsInTime, late_in};
ghost use Rattle.command_line.specs.Shown.{journey_shown, ask_shown};
ghost use Rattle.journey_model.specs.Sites.{HasSite};
ghost use Rattle.journey_problem.specs.Files.{path_of, HasCauses};
ghost use Rattle.journey_problem.specs.Problems.{InProblem};
ghost use Rattle.meat_engine.specs.Asks.{own_paths, AnswersAsk, FailsAsk, FailsCheck, FailsJourney, FailsReplay, FailsScore};
ghost use Rattle.journey_problem.specs.Paths.{graph_path, certificate_path};
ghost use Rattle.journey_problem.specs.GraphFiles.{InGraphFile};
ghost use Rattle.journey_problem.specs.CertificateFiles.{InCertificateFile};
ghost use Rattle.journey_answers.specs.Trips.{AnswersReplay};
ghost use Rattle.journey_answers.specs.Scores.{IsEnclosed};
ghost use Rattle.journey_answers.specs.Certified.{IsHeld};
ghost use Rattle.journey_model.specs.Known.{parts_of};
ghost use Rattle.journey_report.specs.Findings.{findings_of};
ghost use Rattle.meat_engine.specs.Refusals.{IsRefusalBy, by_fault};

use crate::refusal::Refusal;
use command_line::{Ask, Journey};
use csv_rows::Limits;
use file_ports::Files;
use journey_answers::{
    ReadCertificate, ReadGraph, certify_over, check_over, departures_over, expand_over,
    latest_over, plan_over, punctual_over, reach_over, safe_over, score_over, trip_over,
};
use journey_model::{Fault, Problem};
use journey_problem::{problem_of, read_certificate_file, read_graph_file};
use journey_report::Answer;
use plan_model::Start;
use std::alloc::Global;

/// The trip by the graph of a file, with the given delays; or the first fault of the file; or `Replay` with the fault of
/// the trip.
fn replay_over<F: Files>(
    alloc: Global,
    files: &mut F,
    problem: &Problem,
    start: Start,
    graph: &str,
    late: &str,
    limits: &Limits,
) -> Result<Answer, Fault>
    ensures answer { IfOk result (λ a. InGraphFile (F.state files.old).files limits.now start.moment.0
        graph.now problem.now (AnswersReplay problem.now (late_in late.now)
        (findings_of a.report) a.text.items)) }
    ensures fault { IfErr result (λ fault. fault ≢ Fault.NoMemory
        → FailsReplay (F.state files.old).files limits.now start.moment.0 graph.now (late_in late.now)
        problem.now fault) }
    ensures has_site { IfErr result (HasSite (Some (parts_of problem.now))) }
    ensures causes { HasCauses (graph_path graph.now) (F.state files.old) (F.state files.new) result }
{
    let (head, graph) = read_graph_file(alloc, files, graph, problem, start.moment, limits)?;
    let read = ReadGraph {
        problem,
        head,
        graph,
    };
    trip_over(alloc, read, late)
}

/// Bounds on the expected arrival of the graph of a file; or the first fault of the file; or `Unsafe`, with the first
/// moment and place at which one may fail by the graph.
fn check_graph_over<F: Files>(
    alloc: Global,
    files: &mut F,
    problem: &Problem,
    start: Start,
    graph: &str,
    limits: &Limits,
) -> Result<Answer, Fault>
    ensures answer { IfOk result (λ a. InGraphFile (F.state files.old).files limits.now start.moment.0
        graph.now problem.now (IsEnclosed problem.now (findings_of a.report) a.text.items)) }
    ensures fault { IfErr result (λ fault. fault ≢ Fault.NoMemory
        → FailsScore (F.state files.old).files limits.now start.moment.0 graph.now problem.now fault) }
    ensures has_site { IfErr result (HasSite (Some (parts_of problem.now))) }
    ensures causes { HasCauses (graph_path graph.now) (F.state files.old) (F.state files.new) result }
{
    let (head, graph) = read_graph_file(alloc, files, graph, problem, start.moment, limits)?;
    let read = ReadGraph {
        problem,
        head,
        graph,
    };
    score_over(alloc, read)
}

/// That the certificate of a file holds; or the first fault of the file; or `ProofFails`, with the last connection of
/// the scan order that can be boarded and whose value is too great or missing.
fn check_certificate_over<F: Files>(
    alloc: Global,
    files: &mut F,
    problem: &Problem,
    start: Start,
    path: &str,
    limits: &Limits,
) -> Result<Answer, Fault>
    ensures answer { IfOk result (λ a. InCertificateFile (F.state files.old).files limits.now start.moment.0
        path.now problem.now (IsHeld problem.now (findings_of a.report) a.text.items)) }
    ensures fault { IfErr result (λ fault. fault ≢ Fault.NoMemory
        → FailsCheck (F.state files.old).files limits.now start.moment.0 path.now problem.now fault) }
    ensures has_site { IfErr result (HasSite (Some (parts_of problem.now))) }
    ensures causes { HasCauses (certificate_path path.now) (F.state files.old) (F.state files.new) result }
{
    let (query, certificate) = read_certificate_file(
        alloc,
        files,
        path,
        problem,
        start.moment,
        limits,
    )?;
    let read = ReadCertificate {
        problem,
        query,
        certificate,
    };
    check_over(alloc, read)
}

/// The answer to what the words ask about a problem, from a start on.
fn ask_over<F: Files>(
    alloc: Global,
    files: &mut F,
    problem: &Problem,
    start: Start,
    ask: &Ask,
    limits: &Limits,
) -> Result<Answer, Fault>
    requires { IsInTime start.moment.0 (ask_shown ask.now) }
    ensures answer { IfOk result (λ a. AnswersAsk (F.state files.old).files limits.now start.moment.0
        problem.now (ask_shown ask.now) (findings_of a.report) a.text.items) }
    ensures fault { IfErr result (λ fault. fault ≢ Fault.NoMemory
        → FailsAsk (F.state files.old).files limits.now start.moment.0 problem.now (ask_shown ask.now) fault) }
    ensures has_site { IfErr result (HasSite (Some (parts_of problem.now))) }
    ensures causes { HasCauses (own_paths (ask_shown ask.now))
        (F.state files.old) (F.state files.new) result }
{
    match *ask {
        Ask::Safe { alpha } => safe_over(alloc, problem, start, alpha),
        Ask::Expand { alpha } => expand_over(alloc, problem, start, alpha),
        Ask::Plan { alpha } => plan_over(alloc, problem, start, alpha),
        Ask::Replay { graph, late } => {
            replay_over(alloc, files, problem, start, graph, late, limits)
        }
        Ask::Certify { alpha } => certify_over(alloc, problem, start, alpha),
        Ask::CheckProof { proof } => check_certificate_over(
            alloc, files, problem, start, proof, limits,
        ),
        Ask::CheckGraph { graph } => check_graph_over(alloc, files, problem, start, graph, limits),
        Ask::Punctual { alpha, promise } => punctual_over(alloc, problem, start, alpha, promise),
        Ask::Departures { until, last } => departures_over(alloc, problem, start, until, last),
        Ask::Latest { until } => latest_over(alloc, problem, start, until),
        Ask::Reach { until } => reach_over(alloc, problem, start, until),
    }
}

/// The answer to what the words ask about a journey, over its problem; or the first fault of its files.
pub(crate) fn journey_over<F: Files>(
    alloc: Global,
    files: &mut F,
    journey: &Journey,
    ask: &Ask,
    limits: &Limits,
) -> Result<Answer, Refusal>
    requires { IsInTime journey.now.start.moment.0 (ask_shown ask.now) }
    ensures answer { IfOk result (λ a. InProblem (F.state files.old).files limits.now
        (journey_shown journey.now) (λ p. AnswersAsk (F.state files.old).files limits.now
        journey.now.start.moment.0 p (ask_shown ask.now) (findings_of a.report) a.text.items)) }
    ensures fault { IfErr result (IsRefusalBy (FailsJourney (F.state files.old).files limits.now
        (journey_shown journey.now) (ask_shown ask.now))) }
    ensures causes { HasCauses
        (path_of (journey_shown journey.now) (own_paths (ask_shown ask.now)))
        (F.state files.old) (F.state files.new) (by_fault result) }
{
    let problem = match problem_of(alloc, files, journey, limits) {
        Err(fault) => return Err(Refusal::plain(fault)),
        Ok(problem) => problem,
    };
    match ask_over(alloc, files, &problem, journey.start, ask, limits) {
        Err(fault) => Err(Refusal {
            fault,
            problem: Some(problem),
        }),
        Ok(answer) => Ok(answer),
    }
}
