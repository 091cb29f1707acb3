//! The trip by a graph, as the delays come.
ghost use Rattle.std.specs.Prelude.{◌≡◌, ◌≢◌, Some, None, IfOk, IfErr};
ghost use Rattle.command_line.specs.Jobs.{late_in};
ghost use Rattle.journey_model.specs.Faults.{unread_input};
ghost use Rattle.journey_model.specs.Sites.{HasSite};
ghost use Rattle.journey_model.specs.Known.{parts_of};
ghost use Rattle.journey_report.specs.Findings.{findings_of, replay_findings};
ghost use Rattle.journey_report.specs.AnswerTexts.{trace_text};
ghost use Rattle.journey_answers.specs.Trips.{replay_as, AnswersReplay, IsTripFault};

use crate::read_graph::ReadGraph;
use command_line::read_late;
use journey_model::Fault;
use journey_report::{Answer, PrintableTrip, Report, trace_text};
use std::alloc::Global;
use trip_replay::{ReplayFault, Trace, replay};

/// A fault of a trip as one of the run.
fn fault_of(fault: ReplayFault) -> Fault
    ensures { result ≡ replay_as fault }
{
    match fault {
        ReplayFault::NoMemory => Fault::NoMemory,
        ReplayFault::NotADelay(_)
        | ReplayFault::TooFew(_)
        | ReplayFault::TooMany(_)
        | ReplayFault::Stuck(_, _) => Fault::Replay(fault),
    }
}

/// The answer with the trip by a graph, and its text.
fn trip_answer(read: ReadGraph, trace: Trace, text: Vec<u8>) -> Answer
    ensures found { findings_of result.report
        ≡ replay_findings read.entry.head.query read.entry.graph trace }
    ensures text { result.text.items ≡ text.items }
{
    let mut report = Report::empty();
    report.query = Some(read.head.query);
    report.graph = Some(read.graph);
    report.trace = Some(trace);
    Answer { report, text }
}

/// The trip by a graph, with the given delays in seconds; or `Replay` with the fault of the trip.
pub fn trip_over(alloc: Global, read: ReadGraph, late: &str) -> Result<Answer, Fault>
    ensures answer { IfOk result (λ a. AnswersReplay read.entry.problem.now (late_in late.now)
        (findings_of a.report) a.text.items read.entry.head read.entry.graph) }
    ensures fault { IfErr result (λ fault. fault ≢ Fault.NoMemory
        → IsTripFault read.entry.problem.now (late_in late.now) fault
        read.entry.head read.entry.graph) }
    ensures has_site { IfErr result (HasSite (Some (parts_of read.entry.problem.now))) }
    ensures read { IfErr result (λ fault. unread_input fault ≡ None) }
{
    let delays = read_late(alloc, late)?;
    let network = &read.problem.timetable.network;
    let trace = match replay(
        alloc,
        &read.graph,
        network,
        &read.head.query,
        delays.as_slice(),
    ) {
        Err(fault) => return Err(fault_of(fault)),
        Ok(trace) => trace,
    };
    let trip = PrintableTrip {
        problem: read.problem,
        trace: &trace,
    };
    let text = trace_text(alloc, &trip)?;
    Ok(trip_answer(read, trace, text))
}
