//! Bounds on the expected arrival of a graph.
ghost use Rattle.std.specs.Prelude.{◌≡◌, ◌≢◌, Some, None, IfOk, IfErr};
ghost use Rattle.journey_model.specs.Faults.{unread_input};
ghost use Rattle.journey_model.specs.Sites.{HasSite};
ghost use Rattle.journey_model.specs.Known.{parts_of};
ghost use Rattle.journey_report.specs.Findings.{findings_of, score_findings};
ghost use Rattle.journey_report.specs.AnswerTexts.{encloses_text};
ghost use Rattle.printed_rows.specs.Records.{place_name};
ghost use Rattle.journey_answers.specs.Scores.{IsEnclosed, IsUnsafeGraph};

use crate::read_graph::ReadGraph;
use graph_score::{Outlook, score_fit};
use interval_fixed::Span;
use journey_model::Fault;
use journey_report::{Answer, NamedQuery, Report, encloses_text};
use plan_model::NoMemory;
use std::alloc::Global;

/// The answer with the bounds of a graph.
fn enclosed_answer(alloc: Global, read: ReadGraph, bounds: Span) -> Result<Answer, NoMemory>
    ensures found { IfOk result (λ a. findings_of a.report
        ≡ score_findings read.entry.head.query read.entry.graph bounds) }
    ensures text { IfOk result (λ a. a.text.items ≡ encloses_text
        (place_name read.entry.problem.now.timetable.names read.entry.problem.now.source.0)
        (place_name read.entry.problem.now.timetable.names read.entry.problem.now.target.0)
        read.entry.head.query bounds) }
{
    let problem = read.problem;
    let query = read.head.query;
    let named = NamedQuery {
        timetable: &problem.timetable,
        query,
    };
    let text = encloses_text(alloc, &named, bounds)?;
    let mut report = Report::empty();
    report.query = Some(query);
    report.graph = Some(read.graph);
    report.bounds = Some(bounds);
    Ok(Answer { report, text })
}

/// Bounds on the expected arrival of a graph; or `Unsafe`, with the first moment and place at which one may
/// fail by it.
pub fn score_over(alloc: Global, read: ReadGraph) -> Result<Answer, Fault>
    ensures answer { IfOk result (λ a. IsEnclosed read.entry.problem.now (findings_of a.report)
        a.text.items read.entry.head read.entry.graph) }
    ensures fault { IfErr result (λ fault. fault ≢ Fault.NoMemory
        → IsUnsafeGraph read.entry.problem.now fault read.entry.head read.entry.graph) }
    ensures has_site { IfErr result (HasSite (Some (parts_of read.entry.problem.now))) }
    ensures read { IfErr result (λ fault. unread_input fault ≡ None) }
{
    let network = &read.problem.timetable.network;
    match score_fit(alloc, &read.graph, network, &read.head.query)? {
        Outlook::Safe(bounds) => {
            let answer = enclosed_answer(alloc, read, bounds)?;
            Ok(answer)
        }
        Outlook::Failing(failure) => Err(Fault::Unsafe(failure.place, failure.moment)),
    }
}
