//! The decision graph with the least chance of an arrival after a promised moment.
ghost use Rattle.std.proofs.Props.{props};
ghost use Rattle.std.specs.Prelude.{◌≡◌, ◌≤◌, ◌+◌, IfOk, IfErr, MatchOption};
ghost use Rattle.plan_graph.specs.Tidy.{IsFit};
ghost use Rattle.plan_graph.specs.Unfold.{unfold_plan};
ghost use Rattle.plan_model.specs.Strategy.{IsSafeFor};
ghost use Rattle.graph_score.specs.Scores.{IsScored};
ghost use Rattle.late_chance.specs.declared.shift.TheConstants.{SECONDS_PER_WEEK};
ghost use Rattle.journey_answers.specs.Answers.{InQuery, IsNoAnswer};
ghost use Rattle.journey_report.specs.Findings.{findings_of, punctual_findings};
ghost use Rattle.journey_answers.specs.Punctual.{IsPunctualText, AnswersPunctual};

use crate::answers::{Answered, Asked, asked_of};
use decision_graph::punctual_plan;
use graph_score::{Outlook, score_fit};
use graph_text::{Head, fit_is_printable, write};
use interval_fixed::Span;
use journey_model::Problem;
use journey_report::{Answer, Printable, punctual_row};
use late_chance::{LateChance, Promise};
use plan_graph::PlanGraph;
use plan_model::{Moment, NoMemory, Percent, Start};
use std::alloc::Global;

/// A graph that was found for a promise: it fits the network, and its strategy is safe.
#[derive(Drop)]
struct PromisedGraph<'a> {
    asked: Asked<'a>,
    promise: Printable,
    graph: PlanGraph,
    chance: LateChance,
    ghost fit: { IsFit asked.problem.now.timetable.network asked.query graph } by { Prim.hlevel props },
    ghost safe: { ∥ IsSafeFor asked.problem.now.timetable.network asked.query
        (unfold_plan graph asked.problem.now.timetable.network asked.query) ∥₁ },
}

/// Bounds on the expected arrival of a graph that was found for a promise.
fn bounds_of(alloc: Global, promised: &PromisedGraph) -> Result<Span, NoMemory>
    ensures { IfOk result (IsScored promised.now.asked.problem.now.timetable.network
        promised.now.asked.query (unfold_plan promised.now.graph
        promised.now.asked.problem.now.timetable.network promised.now.asked.query)) }
{
    let asked = &promised.asked;
    match score_fit(
        alloc,
        &promised.graph,
        &asked.problem.timetable.network,
        &asked.query,
    )? {
        Outlook::Safe(bounds) => Ok(bounds),
        Outlook::Failing(_) => unreachable!(),
    }
}

/// The text of a decision graph with its chance: the row of the promise, and the text of the graph.
#[tactic(auto, using(crate::proofs::GraphFiles::has_rows))]
fn punctual_text(alloc: Global, promised: &PromisedGraph, bounds: Span) -> Result<Vec<u8>, NoMemory>
    ensures { IfOk result (λ text. IsPunctualText promised.now.asked.problem.now
        promised.now.promise.moment.0 promised.now.asked.query promised.now.graph
        promised.now.chance bounds text.items) }
{
    let asked = &promised.asked;
    let head = Head {
        query: asked.query,
        bounds,
    };
    let network = &asked.problem.timetable.network;
    let names = &asked.problem.timetable.names;
    fit_is_printable();
    let mut text = punctual_row(alloc, promised.promise, promised.chance)?;
    let graph = write(alloc, &promised.graph, &head, network, names)?;
    text.extend_from_slice(graph.as_slice())?;
    Ok(text)
}

/// The answer of a decision graph with its chance.
fn punctual_answer(alloc: Global, promised: PromisedGraph, bounds: Span) -> Result<Answer, NoMemory>
    ensures found { IfOk result (λ a. findings_of a.report ≡ punctual_findings
        promised.entry.asked.query promised.entry.asked.worst
        promised.entry.graph bounds promised.entry.chance) }
    ensures text { IfOk result (λ a. IsPunctualText promised.entry.asked.problem.now
        promised.entry.promise.moment.0 promised.entry.asked.query promised.entry.graph
        promised.entry.chance bounds a.text.items) }
{
    let text = punctual_text(alloc, &promised, bounds)?;
    let mut report = promised.asked.report();
    report.graph = Some(promised.graph);
    report.bounds = Some(bounds);
    report.chance = Some(promised.chance);
    Ok(Answer { report, text })
}

/// The decision graph of a journey with the least chance of an arrival after the promised moment, which is at most a
/// week after the start. `NoSafe` if no strategy always reaches the target.
pub fn punctual_over(
    alloc: Global,
    problem: &Problem,
    start: Start,
    alpha: Percent,
    promise: Moment,
) -> Answered
    requires later { start.moment.0 ≤ promise.0 }
    requires soon { promise.0 ≤ start.moment.0 + SECONDS_PER_WEEK }
    ensures answer { IfOk result (λ a. InQuery problem.now start.moment.0 alpha.value
        (AnswersPunctual problem.now promise.0 (findings_of a.report) a.text.items)) }
    ensures fault { IfErr result (IsNoAnswer problem.now start.moment.0) }
{
    let (asked, _) = asked_of(alloc, problem, start, alpha)?;
    let sought = Promise {
        query: asked.query,
        moment: promise,
    };
    let Some(found) = punctual_plan(alloc, &asked.problem.timetable.network, &sought)? else {
        unreachable!()
    };
    let promised = PromisedGraph {
        asked,
        promise: Printable { moment: promise },
        graph: found.graph,
        chance: found.value,
    };
    let bounds = bounds_of(alloc, &promised)?;
    let answer = punctual_answer(alloc, promised, bounds)?;
    Ok(answer)
}
