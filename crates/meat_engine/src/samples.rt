//! A plan over a timetable that is made.
ghost use Rattle.std.specs.Prelude.{◌≡◌, ◌≢◌, None, IfOk, IfErr};
ghost use Rattle.command_line.specs.Shown.{journey_shown};
ghost use Rattle.decision_graph.specs.Planned.{IsPlanned};
ghost use Rattle.journey_model.specs.Faults.{unread_input};
ghost use Rattle.journey_model.specs.declared.faults.Fault.{Fault};
ghost use Rattle.journey_problem.specs.FaultsBeforeSearch.{IsBeforeSearch};
ghost use Rattle.journey_problem.specs.Problems.{HasTimetable, IsProblem, IsProblemFault};
ghost use Rattle.journey_answers.specs.Answers.{IsNoAnswer};
ghost use Rattle.journey_report.specs.Findings.{findings_of};
ghost use Rattle.meat_engine.specs.Refusals.{IsRefusalBy};
ghost use Rattle.meat_engine.specs.Samples.{sample_journey, AnswersSampled, IsSampled, OverMade, AnswersSample, FailsSample};

use crate::refusal::Refusal;
use command_line::{Journey, Source};
use csv_rows::Limits;
use decision_graph::Found;
use feed_maker::MadeFiles;
use interval_fixed::Span;
use journey_answers::{Asked, asked_of, planned_of};
use journey_model::{Fault, Problem};
use journey_problem::problem_of;
use journey_report::{Answer, sample_text};
use plan_graph::PlanGraph;
use plan_model::{FeedSize, Hours, Moment, NoMemory, Percent, Start};
use std::alloc::Global;

/// The percentage for the deadline of `sample`.
const SAMPLE_ALPHA: u32 = 200;

/// The journey of `sample`: from the hub H0 to the hub H5, from 2024-06-03T08:00:01 on, in a window of
/// 24 hours.
fn sample_journey() -> Journey<'static>
    ensures { journey_shown result ≡ sample_journey }
{
    Journey {
        timetable: Source::Feed("feed", Hours { value: 24 }),
        delays: "delays.csv",
        from: Some("H0"),
        to: "H5",
        start: Start {
            moment: Moment(1_717_401_601),
        },
    }
}

/// The answer of `sample` with a decision graph.
fn sampled_answer(
    alloc: Global,
    size: FeedSize,
    asked: &Asked,
    found: Found<PlanGraph, Span>,
) -> Result<Answer, NoMemory>
    requires { IsPlanned asked.now.problem.now.timetable.network asked.now.query found.graph found.value }
    ensures { IfOk result (λ a. AnswersSampled size.value asked.now.problem.now (findings_of a.report)
        a.text.items asked.now.query asked.now.worst) }
{
    let connections = asked.problem.timetable.network.count();
    let text = sample_text(alloc, size.value, connections, &found.graph, found.value)?;
    let mut report = asked.report();
    report.graph = Some(found.graph);
    report.bounds = Some(found.value);
    report.connections = Some(connections);
    Ok(Answer { report, text })
}

/// The answer of `sample` in the problem of a made timetable of this size. `NoSafe` if no strategy always reaches the
/// target.
fn sample_in(alloc: Global, size: FeedSize, problem: &Problem) -> Result<Answer, Fault>
    ensures sampled { IfOk result (λ a.
        IsSampled size.value problem.now (findings_of a.report) a.text.items) }
    ensures fault { IfErr result (IsNoAnswer problem.now sample_journey.start) }
{
    let start = sample_journey().start;
    let alpha = Percent {
        value: SAMPLE_ALPHA,
    };
    let (asked, mut order) = asked_of(alloc, problem, start, alpha)?;
    let found = planned_of(alloc, &mut order, &asked)?;
    let answer = sampled_answer(alloc, size, &asked, found)?;
    Ok(answer)
}

/// The problem of `sample` in the made timetable of this size, which goes then.
fn sample_problem(alloc: Global, size: FeedSize, limits: &Limits) -> Result<Problem, Fault>
    ensures problem { IfOk result (λ p. OverMade size.value (λ files.
        HasTimetable sample_journey.timetable sample_journey p
        × IsProblem limits.now files sample_journey p)) }
    ensures fault { IfErr result (λ f. f ≢ Fault.NoMemory
        → OverMade size.value (λ files. IsProblemFault limits.now files sample_journey f)) }
    ensures early { IfErr result (IsBeforeSearch sample_journey.timetable) }
    ensures read { IfErr result (λ f. unread_input f ≡ None) }
{
    let mut files = MadeFiles::new(alloc, size.value)?;
    problem_of(alloc, &mut files, &sample_journey(), limits)
}

/// Plans a journey over the timetable of this size.
pub(crate) fn sample(alloc: Global, size: FeedSize, limits: &Limits) -> Result<Answer, Refusal>
    ensures sampled { IfOk result (λ a.
        AnswersSample limits.now size.value (findings_of a.report) a.text.items) }
    ensures fault { IfErr result (IsRefusalBy (FailsSample limits.now size.value)) }
    ensures read { IfErr result (λ r. unread_input r.fault ≡ None) }
{
    let problem = match sample_problem(alloc, size, limits) {
        Err(fault) => return Err(Refusal::plain(fault)),
        Ok(problem) => problem,
    };
    match sample_in(alloc, size, &problem) {
        Err(fault) => Err(Refusal {
            fault,
            problem: Some(problem),
        }),
        Ok(answer) => Ok(answer),
    }
}
