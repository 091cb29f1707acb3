//! What a run came to.
ghost use Rattle.std.specs.Prelude.{◌≡◌, Some, None};
ghost use Rattle.journey_model.specs.Faults.{status_of};
ghost use Rattle.journey_report.specs.Findings.{findings_of, no_findings};

use departure_table::{DepartureRow, ReachRow};
use interval_fixed::Span;
use journey_model::Fault;
use late_chance::LateChance;
use lower_proof::LowerBounds;
use plan_graph::{ExpandedGraph, PlanGraph};
use plan_model::{List, Moment, Query};
use trip_replay::Trace;

/// The number that the process ends with.
#[derive(Clone, Copy)]
pub struct Status(pub u8);

/// What a run came to. At status 0 and at status 8 the fields of the command are present, and else
/// only the fault. It takes itself apart, so a field is read where it is and cannot be moved out alone.
pub struct Report {
    /// The number that the process ends with.
    pub status: Status,
    /// The journey and its deadline: of `replay` and `check` that of the file, and of `reach` with its target as source.
    pub query: Option<Query>,
    /// The least worst arrival, of `safe`, `expand`, `plan`, `certify`, `punctual` and `sample`.
    pub worst: Option<Moment>,
    /// The decision graph by ride, of `expand`.
    pub expanded: Option<ExpandedGraph>,
    /// The decision graph by place: of `plan`, `punctual` and `sample` the one that was found, and of `replay` and `check`
    /// that of the graph file.
    pub graph: Option<PlanGraph>,
    /// Bounds on the expected arrival of the graph, in nanoseconds since 1970-01-01. Those of `expand`, `plan` and `sample`
    /// enclose the least of all safe strategies too; those of `punctual` and `check` are about the graph alone.
    pub bounds: Option<Span>,
    /// The trip by the graph, of `replay`.
    pub trace: Option<Trace>,
    /// How many connections the window has, of `sample`.
    pub connections: Option<u32>,
    /// The certificate: of `certify` the one that was made, and of `check` the one that holds.
    pub proof: Option<LowerBounds>,
    /// The certificate's least value at the start, in nanoseconds since 1970-01-01, of `check`; `None` if it has none.
    pub least: Option<u64>,
    /// Bounds on the chance of an arrival after the promised moment, of `punctual`, in units of 10 to the -18.
    pub chance: Option<LateChance>,
    /// The departures up to a last moment, of `departures`.
    pub departures: Option<List<DepartureRow>>,
    /// The latest moment at which one can leave, of `latest`.
    pub latest: Option<Moment>,
    /// The places from which one can reach the target, of `reach`.
    pub reach: Option<List<ReachRow>>,
    /// Why there is no answer, or why it was not written.
    pub fault: Option<Fault>,
}

impl Drop for Report {
    /// Drops its parts here, so that a caller drops one value.
    fn drop(self) {
        let Report {
            status,
            query,
            worst,
            expanded,
            graph,
            bounds,
            trace,
            connections,
            proof,
            least,
            chance,
            departures,
            latest,
            reach,
            fault,
        } = self;
    }
}

impl Report {
    /// A report of nothing, at status 0.
    pub fn empty() -> Report
        ensures findings { findings_of result ≡ no_findings }
        ensures status { result.status.0 ≡ 0 }
        ensures fault { result.fault ≡ None }
    {
        Report {
            status: Status(0),
            query: None,
            worst: None,
            expanded: None,
            graph: None,
            bounds: None,
            trace: None,
            connections: None,
            proof: None,
            least: None,
            chance: None,
            departures: None,
            latest: None,
            reach: None,
            fault: None,
        }
    }

    /// A report of a fault and nothing else.
    pub fn bare(fault: Fault) -> Report
        ensures findings { findings_of result ≡ no_findings }
        ensures status { result.status.0 ≡ status_of result.fault }
        ensures fault { result.fault ≡ Some fault }
    {
        let mut report = Report::empty();
        report.status = Status(fault.status());
        report.fault = Some(fault);
        report
    }
}
