//! The answers about the strategies of a journey.
ghost use Rattle.std.specs.Prelude.{◌≡◌, ◌<◌, ◌≤◌, Some, None, IfOk, IfErr, IfSome};
ghost use Rattle.plan_model.specs.Order.{IsScanOrder};
ghost use Rattle.plan_model.specs.Strategy.{IsLeastWorst};
ghost use Rattle.decision_graph.specs.Planned.{IsPlanned, IsExpanded};
ghost use Rattle.journey_answers.specs.Answers.{IsWorst, IsQueryOf, InQuery, IsPrintable, AnswersSafe, AnswersExpand, AnswersPlan, IsNoAnswer};
ghost use Rattle.journey_report.specs.Findings.{findings_of, safe_findings};
ghost use Rattle.plan_model.specs.Bounds.{end_of_time};

use decision_graph::{Found, expand, plan};
use graph_text::{Head, fit_is_printable, ready_is_printable, write, write_expanded};
use interval_fixed::Span;
use journey_model::{Fault, Problem};
use journey_report::{Answer, NamedQuery, Printable, Report, safe_text};
use merged_runs::MergedRuns;
use plan_graph::{ExpandedGraph, PlanGraph};
use plan_model::{BackwardOrder, Moment, NoMemory, Percent, Query, Start};
use safe_arrival::{deadline, reserved_worst};
use std::alloc::Global;

/// An answer; or the fault for which there is none.
pub type Answered = Result<Answer, Fault>;

/// A query of a problem, and the least worst arrival that its deadline follows from.
#[derive(Clone, Copy)]
pub struct Asked<'a> {
    /// The problem.
    pub problem: &'a Problem,
    /// The query, with its deadline.
    pub query: Query,
    /// Its least worst arrival.
    pub worst: Moment,
    /// That its places are the network's, and its moments have texts.
    pub ghost printable: { IsPrintable problem.now.timetable.network query worst },
    /// That `worst` is the least worst arrival.
    pub ghost least: { ∥ IsWorst problem.now.timetable.network query worst ∥₁ },
}

impl<'a> Asked<'a> {
    /// A report of the query and its least worst arrival.
    pub fn report(&self) -> Report
        ensures { findings_of result ≡ safe_findings self.now.query self.now.worst }
    {
        let mut report = Report::empty();
        report.query = Some(self.query);
        report.worst = Some(self.worst);
        report
    }
}

/// The query of a journey from a start on, by a percentage for the deadline, with its least worst
/// arrival, and an order for the scan that finds its graph. The percentage is of the time from the start to the
/// least worst arrival. `NoSafe` if no strategy always reaches the target.
pub fn asked_of<'a>(
    alloc: Global,
    problem: &'a Problem,
    start: Start,
    alpha: Percent,
) -> Result<(Asked<'a>, MergedRuns), Fault>
    ensures problem { IfOk result (λ found. found.0.problem.now ≡ problem.now) }
    ensures asked { IfOk result (λ found.
        IsQueryOf problem.now start.moment.0 alpha.value found.0.query found.0.worst) }
    ensures fits { IfOk result (λ found.
        ⟦<MergedRuns as BackwardOrder>⟧.fits found.1 problem.now.timetable.network) }
    ensures fault { IfErr result (IsNoAnswer problem.now start.moment.0) }
{
    let network = &problem.timetable.network;
    let mut order = MergedRuns::new(alloc, network)?;
    let found = reserved_worst(
        alloc,
        network,
        &mut order,
        problem.source,
        problem.target,
        start.moment,
    )?;
    let Some(worst) = found else {
        return Err(Fault::NoSafe);
    };
    let query = Query {
        source: problem.source,
        target: problem.target,
        start: start.moment,
        deadline: deadline(start.moment, worst, alpha.value),
    };
    let asked = Asked {
        problem,
        query,
        worst,
    };
    Ok((asked, order))
}

/// The decision graph by ride of a query, with its bounds.
fn expanded_of<B: BackwardOrder>(
    alloc: Global,
    order: &mut B,
    asked: &Asked,
) -> Result<Found<ExpandedGraph, Span>, NoMemory>
    requires { B.fits order.old asked.now.problem.now.timetable.network }
    ensures { IfOk result (λ found. IsExpanded asked.now.problem.now.timetable.network
        asked.now.query found.graph found.value) }
{
    let network = &asked.problem.timetable.network;
    order.rewind(network);
    match expand(alloc, order, network, &asked.query)? {
        None => unreachable!(),
        Some(found) => Ok(found),
    }
}

/// The decision graph by place of a query, with its bounds. Whatever is answered, the order still fits the network.
pub fn planned_of<B: BackwardOrder>(
    alloc: Global,
    order: &mut B,
    asked: &Asked,
) -> Result<Found<PlanGraph, Span>, NoMemory>
    requires { B.fits order.old asked.now.problem.now.timetable.network }
    ensures planned { IfOk result (λ found. IsPlanned asked.now.problem.now.timetable.network
        asked.now.query found.graph found.value) }
    ensures fits { B.fits order.new asked.now.problem.now.timetable.network }
{
    let network = &asked.problem.timetable.network;
    order.rewind(network);
    match plan(alloc, order, network, &asked.query)? {
        None => unreachable!(),
        Some(found) => Ok(found),
    }
}

/// The answer with a decision graph by ride.
fn expanded_answer(
    alloc: Global,
    asked: &Asked,
    found: Found<ExpandedGraph, Span>,
) -> Result<Answer, NoMemory>
    requires { IsExpanded asked.now.problem.now.timetable.network asked.now.query found.graph found.value }
    ensures { IfOk result (λ a. AnswersExpand asked.now.problem.now (findings_of a.report) a.text.items
        asked.now.query asked.now.worst) }
{
    let head = Head {
        query: asked.query,
        bounds: found.value,
    };
    let network = &asked.problem.timetable.network;
    let names = &asked.problem.timetable.names;
    ready_is_printable();
    let text = write_expanded(alloc, &found.graph, &head, network, names)?;
    let mut report = asked.report();
    report.expanded = Some(found.graph);
    report.bounds = Some(found.value);
    Ok(Answer { report, text })
}

/// The answer with a decision graph by place.
fn planned_answer(
    alloc: Global,
    asked: &Asked,
    found: Found<PlanGraph, Span>,
) -> Result<Answer, NoMemory>
    requires { IsPlanned asked.now.problem.now.timetable.network asked.now.query found.graph found.value }
    ensures { IfOk result (λ a. AnswersPlan asked.now.problem.now (findings_of a.report) a.text.items
        asked.now.query asked.now.worst) }
{
    let head = Head {
        query: asked.query,
        bounds: found.value,
    };
    let network = &asked.problem.timetable.network;
    let names = &asked.problem.timetable.names;
    fit_is_printable();
    let text = write(alloc, &found.graph, &head, network, names)?;
    let mut report = asked.report();
    report.graph = Some(found.graph);
    report.bounds = Some(found.value);
    Ok(Answer { report, text })
}

/// The least worst arrival of a journey and its deadline. `NoSafe` if no strategy always reaches the target.
pub fn safe_over(alloc: Global, problem: &Problem, start: Start, alpha: Percent) -> Answered
    ensures answer { IfOk result (λ a. InQuery problem.now start.moment.0 alpha.value
        (AnswersSafe problem.now (findings_of a.report) a.text.items)) }
    ensures fault { IfErr result (IsNoAnswer problem.now start.moment.0) }
{
    let (asked, _) = asked_of(alloc, problem, start, alpha)?;
    let named = NamedQuery {
        timetable: &problem.timetable,
        query: asked.query,
    };
    let worst = Printable {
        moment: asked.worst,
    };
    let text = safe_text(alloc, &named, worst)?;
    let report = asked.report();
    Ok(Answer { report, text })
}

/// The decision graph of a journey, by ride. `NoSafe` if no strategy always reaches the target.
pub fn expand_over(alloc: Global, problem: &Problem, start: Start, alpha: Percent) -> Answered
    ensures answer { IfOk result (λ a. InQuery problem.now start.moment.0 alpha.value
        (AnswersExpand problem.now (findings_of a.report) a.text.items)) }
    ensures fault { IfErr result (IsNoAnswer problem.now start.moment.0) }
{
    let (asked, mut order) = asked_of(alloc, problem, start, alpha)?;
    let found = expanded_of(alloc, &mut order, &asked)?;
    let answer = expanded_answer(alloc, &asked, found)?;
    Ok(answer)
}

/// The decision graph of a journey, by place. `NoSafe` if no strategy always reaches the target.
pub fn plan_over(alloc: Global, problem: &Problem, start: Start, alpha: Percent) -> Answered
    ensures answer { IfOk result (λ a. InQuery problem.now start.moment.0 alpha.value
        (AnswersPlan problem.now (findings_of a.report) a.text.items)) }
    ensures fault { IfErr result (IsNoAnswer problem.now start.moment.0) }
{
    let (asked, mut order) = asked_of(alloc, problem, start, alpha)?;
    let found = planned_of(alloc, &mut order, &asked)?;
    let answer = planned_answer(alloc, &asked, found)?;
    Ok(answer)
}
