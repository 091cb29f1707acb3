//! The places from which one can reach the target of a journey.
ghost use Rattle.std.specs.Prelude.{IfOk, IfErr};
ghost use Rattle.command_line.specs.Jobs.{IsLater};
ghost use Rattle.journey_answers.specs.Departures.{query_until};
ghost use Rattle.journey_answers.specs.Reach.{AreReached, AnswersReach, FailsReach};
ghost use Rattle.journey_model.specs.Faults.{OrNoMemory};
ghost use Rattle.journey_report.specs.Findings.{findings_of};

use crate::answers::Answered;
use crate::departures::{QueryUntil, query_until, scan_of};
use departure_table::{ReachRow, reach, with_every_gate};
use journey_model::Problem;
use journey_report::{Answer, NamedQuery, Report, reach_text};
use plan_model::{List, Moment, NoMemory, PlaceId, Query, Start};
use std::alloc::Global;

/// The places from which one can set out at the start of a query and be at its target by the deadline. The source of the
/// query is of no account.
fn reach_of(alloc: Global, asked: &QueryUntil) -> Result<List<ReachRow>, NoMemory>
    ensures { IfOk result (AreReached asked.now.problem.now.timetable.network asked.now.query) }
{
    let network = &asked.problem.timetable.network;
    let extended = with_every_gate(alloc, network)?;
    let query = Query {
        source: PlaceId(network.places()),
        ..asked.query
    };
    let scanned = scan_of(alloc, &extended, &query)?;
    // The proof takes two promises of the rows together, so they have a name.
    let rows = reach(alloc, &scanned, &extended, network, &query)?;
    Ok(rows)
}

/// The answer about the places from which one can reach the target of a query.
fn reach_answer(alloc: Global, asked: &QueryUntil) -> Result<Answer, NoMemory>
    ensures { IfOk result (λ a. AnswersReach asked.now.problem.now asked.now.query
        (findings_of a.report) a.text.items) }
{
    let rows = reach_of(alloc, asked)?;
    let named = NamedQuery {
        timetable: &asked.problem.timetable,
        query: asked.query,
    };
    let text = reach_text(alloc, &named, rows.as_slice())?;
    let mut report = Report::empty();
    report.query = Some(asked.query);
    report.reach = Some(rows);
    Ok(Answer { report, text })
}

/// For each place from which one can be at the target of a journey by the deadline, the latest moment at which one can leave,
/// and bounds on the least expected arrival of who leaves at the start. The source of the journey is of no account.
pub fn reach_over(alloc: Global, problem: &Problem, start: Start, until: Moment) -> Answered
    requires { IsLater start.moment.0 until.0 }
    ensures answer { IfOk result (λ a. AnswersReach problem.now
        (query_until problem.now start.moment.0 until.0) (findings_of a.report) a.text.items) }
    ensures fault { IfErr result (OrNoMemory FailsReach) }
{
    let asked = QueryUntil {
        problem,
        query: query_until(problem, start, until),
    };
    let answer = reach_answer(alloc, &asked)?;
    Ok(answer)
}
