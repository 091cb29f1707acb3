//! What one command prints, another takes.
ghost use Rattle.std.specs.Prelude.{◌≡◌, ◌<◌, ◌≤◌, ◌+◌, ℕ, List as Bytes, Option as Maybe, length, None, Some, Ok};
ghost use Rattle.csv_rows.specs.declared.limits.Limits.{Limits as Most};
ghost use Rattle.file_ports.specs.Ports.{FileMap, file_at};
ghost use Rattle.journey_model.specs.declared.problem.Problem.{Problem as Parts};
ghost use Rattle.journey_report.specs.Findings.{Findings};
ghost use Rattle.journey_answers.specs.Answers.{InQuery, AnswersPlan};
ghost use Rattle.graph_text.specs.declared.Head.{Head as HeadParts};
ghost use Rattle.plan_graph.specs.declared.PlanGraph.{PlanGraph as Graph};
ghost use Rattle.journey_problem.specs.GraphFiles.{graph_in, InGraphFile};
ghost use Rattle.journey_answers.specs.Scores.{IsEnclosed};
ghost use Rattle.journey_answers.specs.Trips.{trip_by};
ghost use Rattle.trip_replay.specs.Walk.{IsSafeAnswer};
ghost use Rattle.trip_replay.specs.Late.{ArePossible};
ghost use Rattle.interval_fixed.specs.Interval.{Interval};
ghost use Rattle.plan_model.specs.Network.{NetworkModel, count};
ghost use Rattle.plan_model.specs.Strategy.{IsLeastWorst};
ghost use Rattle.plan_model.specs.Tree.{Tree as Strategy};
ghost use Rattle.plan_model.specs.declared.model.Query.{Query as Asked};
ghost use Rattle.plan_model.specs.declared.model.Moment.{Moment as When};
ghost use Rattle.decision_graph.specs.GraphValues.{IsBest};
ghost use Rattle.decision_graph.specs.Planned.{IsPlanned};
ghost use Rattle.departure_table.specs.Departures.{IsBestFrom, SafeFrom};
ghost use Rattle.departure_table.specs.declared.DepartureRow.{DepartureRow as Row};
ghost use Rattle.journey_answers.specs.Departures.{query_until};
ghost use Rattle.lower_proof.specs.Certificates.{IsLeastAtStart};
ghost use Rattle.lower_proof.specs.Promises.{IsBestCertificate};
ghost use Rattle.journey_answers.specs.Certified.{AnswersCertify};
ghost use Rattle.meat_engine.specs.Ends.{EndsByScore, EndsByCertificateFile, EndsByDepartures, EndsByLatest};
ghost use Rattle.run_laws.specs.Printed.{ArrivesByFile, KeepsUpperBound};

/// Where a file holds what `plan` prints of a problem, `check` of this graph over the problem ends with 0.
pub fn a_printed_plan_is_accepted()
    ensures { (limits : Most) (files : FileMap) (start alpha : ℕ) (p : Parts) (found : Findings) (text path : Bytes ℕ)
        (status : ℕ) →
        InQuery p start alpha (AnswersPlan p found text) → file_at files path ≡ Some text → length text ≤ limits.bytes →
        EndsByScore limits files start path p status → status ≡ 0 }
{}

/// And `replay` by this graph is never stuck, whatever delays come, and arrives by the deadline.
pub fn a_printed_plan_is_never_stuck()
    ensures { (limits : Most) (files : FileMap) (start alpha : ℕ) (p : Parts) (found : Findings) (text path late : Bytes ℕ) →
        InQuery p start alpha (AnswersPlan p found text) → file_at files path ≡ Some text → length text ≤ limits.bytes →
        (head : HeadParts) (graph : Graph) → graph_in limits p start None (file_at files path) ≡ Ok (head, graph) →
        IsSafeAnswer head.query.deadline.0 (trip_by p head graph late) }
{}

/// And however late each connection is by its class, there are delays for it by which `replay` of this graph ends
/// with 0, and by which the traveller arrives by the deadline.
pub fn a_printed_plan_arrives()
    ensures { (limits : Most) (files : FileMap) (start alpha : ℕ) (p : Parts) (found : Findings) (text path : Bytes ℕ)
        (late : ℕ → ℕ) →
        InQuery p start alpha (AnswersPlan p found text) → file_at files path ≡ Some text → length text ≤ limits.bytes →
        ArePossible p.timetable.network late → ArrivesByFile limits files start path p late }
{}

/// `check` of this graph finds the upper bound that `plan` printed, and no lesser lower bound.
pub fn a_printed_plan_keeps_its_upper_bound()
    ensures { (limits : Most) (files : FileMap) (start alpha : ℕ) (p : Parts) (found other : Findings)
        (text path line : Bytes ℕ) →
        InQuery p start alpha (AnswersPlan p found text) → file_at files path ≡ Some text → length text ≤ limits.bytes →
        InGraphFile (Some files) limits start path p (IsEnclosed p other line) → KeepsUpperBound found other }
{}

/// Where a file holds what `certify` prints of a problem, `check` of this certificate over the problem ends with 0.
pub fn a_printed_certificate_is_accepted()
    ensures { (limits : Most) (files : FileMap) (start alpha : ℕ) (p : Parts) (found : Findings) (text path : Bytes ℕ)
        (status : ℕ) →
        InQuery p start alpha (AnswersCertify p found text) → file_at files path ≡ Some text → length text ≤ limits.bytes →
        EndsByCertificateFile limits files start path p status → status ≡ 0 }
{}

/// The value at the start of the certificate of `certify` is at most the upper bound of `plan`; and the lower bound of
/// `plan` is at most that value and a nanosecond for each connection.
pub fn certificate_value_is_within_plan_bounds()
    ensures { (n : NetworkModel) (q : Asked) (graph : Graph) (bounds : Interval) (values : Bytes (Maybe ℕ)) (v : ℕ)
        → IsPlanned n q graph bounds →
        IsBestCertificate n q values → IsLeastAtStart n q values (Some v) → (v ≤ bounds.hi) × (bounds.lo ≤ v + count n) }
{}

/// The upper bound of a row of `departures` is that of a best strategy from then with the same deadline.
pub fn a_row_has_the_bound_of_a_plan()
    ensures { (n : NetworkModel) (source moment : ℕ) (q r : Asked) (row : Row) (strategy : Strategy) (bounds : Interval)
        → IsBestFrom n (SafeFrom n source q) moment row → IsBest n r strategy bounds → r.source.0 ≡ source → r.target.0 ≡ q.target.0
        → r.start.0 ≡ moment → r.deadline.0 ≡ q.deadline.0 → row.bounds.hi ≡ bounds.hi }
{}

/// `latest` ends as `departures` does.
pub fn latest_ends_as_departures()
    ensures { (p : Parts) (q : Asked) (latest departures : ℕ) → EndsByLatest p q latest → EndsByDepartures p q departures
        → latest ≡ departures }
{}

/// `latest` ends with 0 exactly if the least worst arrival, which `safe` prints, is by the deadline, and otherwise with 1.
pub fn latest_ends_by_the_least_worst()
    ensures { (p : Parts) (start until : ℕ) (worst : When) (status : ℕ)
        → IsLeastWorst p.timetable.network p.source.0 p.target.0 start (Some worst) →
        EndsByLatest p (query_until p start until) status → (worst.0 ≤ until → status ≡ 0) × (until < worst.0 → status ≡ 1) }
{}
