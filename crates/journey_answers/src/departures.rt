//! The departures of a journey, and the latest moment at which one can leave.
ghost use Rattle.std.specs.Prelude.{◌≡◌, ◌≢◌, ◌≤◌, ◌∷◌, [], Some, IfOk, IfErr, MatchOption};
ghost use Rattle.command_line.specs.Jobs.{IsLater};
ghost use Rattle.decision_graph.specs.Planned.{IsNoneSafe};
ghost use Rattle.departure_table.specs.Departures.{IsExtendedFor, IsGreatestMoment, IsTable};
ghost use Rattle.meat_scan.specs.Solves.{Solves};
ghost use Rattle.value_laws.specs.Means.{mean_scoring};
ghost use Rattle.command_line.specs.Values.{last_until};
ghost use Rattle.journey_model.specs.Faults.{OrNoMemory};
ghost use Rattle.plan_model.specs.Gates.{extended_by as with_gates};
ghost use Rattle.journey_answers.specs.Departures.{IsRuled, AreByRules, added_query, query_until, SafeOf, AreDepartures, HasSafeFor, IsUntil, AnswersDepartures, AnswersLatest, FailsDepartures, FailsLatest};
ghost use Rattle.journey_report.specs.Findings.{findings_of};

use crate::answers::Answered;
use departure_table::{DepartureRow, extended_by, greatest, says_of_source, table};
use journey_model::{Fault, Problem};
use journey_report::{Answer, NamedQuery, Printable, Report, departures_text, latest_text};
use meat_scan::{ScanTables, Scanned, scan};
use merged_runs::MergedRuns;
use plan_model::{BackwardOrder, List, Moment, Network, NoMemory, PlaceId, Query, Start};
use std::alloc::Global;
use value_laws::MeanSpan;

/// What a scan finds from a place that is added to a network, from which one is at the source a second
/// later.
#[derive(Drop)]
struct FromAdded {
    network: Network,
    query: Query,
    scanned: Scanned<MeanSpan>,
}

/// A query of a problem with a deadline of its own, which is not before its start.
#[derive(Clone, Copy)]
pub(crate) struct QueryUntil<'a> {
    pub(crate) problem: &'a Problem,
    pub(crate) query: Query,
    ghost until: { IsUntil problem.now query },
    ghost deadline: { query.deadline.0 ≤ last_until },
}

/// A query between two different places.
#[derive(Clone, Copy)]
struct Away<'a> {
    asked: QueryUntil<'a>,
    ghost differ: { asked.query.source.0 ≢ asked.query.target.0 },
}

/// A query, and a last moment up to which its departures are asked for.
#[derive(Clone, Copy)]
struct UpTo<'a> {
    asked: QueryUntil<'a>,
    last: Moment,
    ghost later: { IsLater asked.query.start.0 last.0 },
}

/// The query of a problem, from a start on, with a deadline of its own.
pub(crate) fn query_until(problem: &Problem, start: Start, until: Moment) -> Query
    ensures { result ≡ query_until problem.now start.moment.0 until.0 }
{
    Query {
        source: problem.source,
        target: problem.target,
        start: start.moment,
        deadline: until,
    }
}

/// What a scan of a network finds for a query.
pub(crate) fn scan_of(
    alloc: Global,
    network: &Network,
    query: &Query,
) -> Result<Scanned<MeanSpan>, NoMemory>
    requires { query.now.source.0 ≢ query.now.target.0 }
    ensures solves { IfOk result (λ scanned. Solves mean_scoring
        scanned network.now query.now) }
    ensures ruled { IfOk result (IsRuled network.now query.now) }
{
    let mut order = MergedRuns::new(alloc, network)?;
    let tables: ScanTables<MeanSpan> = ScanTables::reserve_until(alloc, network, query.deadline)?;
    Ok(scan(tables, network, &mut order, query))
}

/// Scans the network of a problem from an added place, which leads to the source of the query. For a network
/// with the greatest number of places the answer is that there is no memory.
fn scan_from_added(alloc: Global, away: &Away) -> Result<FromAdded, NoMemory>
    ensures extended { IfOk result (λ found. IsExtendedFor found.network found.query
        away.now.asked.problem.now.timetable.network away.now.asked.query.source.0) }
    ensures target { IfOk result (λ found. found.query.target ≡ away.now.asked.query.target) }
    ensures deadline { IfOk result (λ found. found.query.deadline ≡ away.now.asked.query.deadline) }
    ensures solves { IfOk result (λ found. Solves mean_scoring
        found.scanned found.network found.query) }
    ensures ruled { IfOk result (λ found. IsRuled found.network found.query found.scanned) }
    ensures network { IfOk result (λ found. found.network
        ≡ with_gates away.now.asked.problem.now.timetable.network (away.now.asked.query.source ∷ [])) }
    ensures query { IfOk result (λ found. found.query
        ≡ added_query away.now.asked.problem.now.timetable.network away.now.asked.query) }
{
    let asked = &away.asked;
    let before = &asked.problem.timetable.network;
    let places = before.places();
    if places == u32::MAX {
        return Err(NoMemory);
    }
    let network = extended_by(alloc, before, &[asked.query.source])?;
    let query = Query {
        source: PlaceId(places),
        ..asked.query
    };
    let scanned = scan_of(alloc, &network, &query)?;
    Ok(FromAdded {
        network,
        query,
        scanned,
    })
}

/// The departures of a query between two places, up to a last moment; no row if nobody who sets out
/// at the start is safe.
fn rows_of(alloc: Global, away: &Away, last: Moment) -> Result<List<DepartureRow>, NoMemory>
    ensures table { IfOk result (IsTable away.now.asked.problem.now.timetable.network
        (SafeOf away.now.asked.problem.now away.now.asked.query) away.now.asked.query.start.0 last.0) }
    ensures by_rules { IfOk result (AreByRules away.now.asked.problem.now away.now.asked.query last.0) }
{
    let found = scan_from_added(alloc, away)?;
    says_of_source();
    table(
        alloc,
        &found.scanned,
        &found.network,
        &found.query,
        away.asked.query.start,
        last,
    )
}

/// The departures of a query, up to a last moment; `None` if nobody who sets out at the start is safe.
fn departures_of(alloc: Global, up_to: &UpTo) -> Result<Option<List<DepartureRow>>, NoMemory>
    ensures { IfOk result (λ found. MatchOption found
        (IsNoneSafe up_to.now.asked.problem.now.timetable.network up_to.now.asked.query)
        (λ rows. AreDepartures up_to.now.asked.problem.now up_to.now.asked.query up_to.now.last.0 rows
        × HasSafeFor up_to.now.asked.problem.now up_to.now.asked.query)) }
{
    let asked = up_to.asked;
    if asked.query.source.0 == asked.query.target.0 {
        return Ok(Some(List::new(alloc)));
    }
    let rows = rows_of(alloc, &Away { asked }, up_to.last)?;
    if rows.len() == 0 {
        return Ok(None);
    }
    Ok(Some(rows))
}

/// The latest moment from the start of a query on at which one can leave and be safe.
fn latest_of(alloc: Global, asked: &QueryUntil) -> Result<Option<Moment>, NoMemory>
    ensures { IfOk result (IsGreatestMoment (SafeOf asked.now.problem.now asked.now.query)
        asked.now.query.start.0) }
{
    let query = &asked.query;
    if query.source.0 == query.target.0 {
        return Ok(Some(query.deadline));
    }
    let found = scan_from_added(alloc, &Away { asked: *asked })?;
    says_of_source();
    Ok(greatest(&found.scanned, &found.network, &found.query, query.start))
}

/// The answer of departures.
fn departures_answer(
    alloc: Global,
    up_to: &UpTo,
    departures: List<DepartureRow>,
) -> Result<Answer, NoMemory>
    requires departures { AreDepartures up_to.now.asked.problem.now up_to.now.asked.query
        up_to.now.last.0 departures }
    requires safe { HasSafeFor up_to.now.asked.problem.now up_to.now.asked.query }
    ensures { IfOk result (λ a. AnswersDepartures up_to.now.asked.problem.now up_to.now.asked.query
        up_to.now.last.0 (findings_of a.report) a.text.items) }
{
    let query = up_to.asked.query;
    let named = NamedQuery {
        timetable: &up_to.asked.problem.timetable,
        query,
    };
    let last = Printable { moment: up_to.last };
    let text = departures_text(alloc, &named, last, departures.as_slice())?;
    let mut report = Report::empty();
    report.query = Some(query);
    report.departures = Some(departures);
    Ok(Answer { report, text })
}

/// The answer of the latest moment at which one can leave.
fn latest_answer(alloc: Global, asked: &QueryUntil, moment: Moment) -> Result<Answer, NoMemory>
    requires { IsGreatestMoment (SafeOf asked.now.problem.now asked.now.query)
        asked.now.query.start.0 (Some moment) }
    ensures { IfOk result (λ a. AnswersLatest asked.now.problem.now asked.now.query
        (findings_of a.report) a.text.items) }
{
    let named = NamedQuery {
        timetable: &asked.problem.timetable,
        query: asked.query,
    };
    let text = latest_text(alloc, &named, Printable { moment })?;
    let mut report = Report::empty();
    report.query = Some(asked.query);
    report.latest = Some(moment);
    Ok(Answer { report, text })
}

/// The departures of a journey, up to a last moment. `NoSafe` comes exactly if nobody who sets out at the
/// start is safe.
pub fn departures_over(
    alloc: Global,
    problem: &Problem,
    start: Start,
    until: Moment,
    last: Moment,
) -> Answered
    requires until { IsLater start.moment.0 until.0 }
    requires last { IsLater start.moment.0 last.0 }
    ensures answer { IfOk result (λ a. AnswersDepartures problem.now
        (query_until problem.now start.moment.0 until.0) last.0 (findings_of a.report) a.text.items) }
    ensures fault { IfErr result (OrNoMemory (FailsDepartures problem.now
        (query_until problem.now start.moment.0 until.0))) }
{
    let asked = QueryUntil {
        problem,
        query: query_until(problem, start, until),
    };
    let up_to = UpTo { asked, last };
    let Some(departures) = departures_of(alloc, &up_to)? else {
        return Err(Fault::NoSafe);
    };
    let answer = departures_answer(alloc, &up_to, departures)?;
    Ok(answer)
}

/// The latest moment at which one can leave on a journey and be sure to arrive by the deadline. `NoSafe` comes exactly if
/// there is none.
pub fn latest_over(alloc: Global, problem: &Problem, start: Start, until: Moment) -> Answered
    requires { IsLater start.moment.0 until.0 }
    ensures answer { IfOk result (λ a. AnswersLatest problem.now
        (query_until problem.now start.moment.0 until.0) (findings_of a.report) a.text.items) }
    ensures fault { IfErr result (OrNoMemory (FailsLatest problem.now
        (query_until problem.now start.moment.0 until.0))) }
{
    let asked = QueryUntil {
        problem,
        query: query_until(problem, start, until),
    };
    let Some(moment) = latest_of(alloc, &asked)? else {
        return Err(Fault::NoSafe);
    };
    let answer = latest_answer(alloc, &asked, moment)?;
    Ok(answer)
}
