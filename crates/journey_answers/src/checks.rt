//! Whether a certificate holds.
ghost use Rattle.std.specs.Prelude.{◌≡◌, ◌≢◌, ◌≤◌, Some, None, IfOk, IfErr};
ghost use Rattle.journey_model.specs.Faults.{unread_input};
ghost use Rattle.journey_model.specs.Sites.{last_printable, HasSite};
ghost use Rattle.journey_model.specs.Known.{parts_of};
ghost use Rattle.journey_report.specs.Findings.{findings_of, check_findings};
ghost use Rattle.journey_report.specs.AnswerTexts.{holds_text};
ghost use Rattle.printed_rows.specs.Records.{place_name};
ghost use Rattle.plan_model.specs.Bounds.{last_start};
ghost use Rattle.journey_answers.specs.Certified.{IsHeld, IsBroken};

use journey_model::{Fault, Problem};
use journey_report::{Answer, NamedQuery, Report, holds_text};
use lower_proof::{LowerBounds, Verdict, check, least};
use plan_model::{NoMemory, Query};
use std::alloc::Global;

/// A certificate that was read for a problem. Its query is between the ends of the problem, and the moments of the query
/// have texts.
#[derive(Drop)]
pub struct ReadCertificate<'a> {
    /// The problem.
    pub problem: &'a Problem,
    /// The query that it is for.
    pub query: Query,
    /// Its values.
    pub certificate: LowerBounds,
    /// That the query begins where the problem does.
    pub ghost source: { query.source.0 ≡ problem.now.source.0 },
    /// That it ends where the problem does.
    pub ghost target: { query.target.0 ≡ problem.now.target.0 },
    /// That it does not start after the last start.
    pub ghost start: { query.start.0 ≤ last_start },
    /// That the deadline has a text.
    pub ghost deadline: { query.deadline.0 ≤ last_printable },
}

/// The answer that a certificate holds, with its least value at the start.
fn held_answer(alloc: Global, read: ReadCertificate, least: Option<u64>) -> Result<Answer, NoMemory>
    ensures found { IfOk result (λ a. findings_of a.report
        ≡ check_findings read.entry.query read.entry.certificate least) }
    ensures text { IfOk result (λ a. a.text.items ≡ holds_text
        (place_name read.entry.problem.now.timetable.names read.entry.problem.now.source.0)
        (place_name read.entry.problem.now.timetable.names read.entry.problem.now.target.0)
        read.entry.query least) }
{
    let ReadCertificate {
        problem,
        query,
        certificate,
    } = read;
    let named = NamedQuery {
        timetable: &problem.timetable,
        query,
    };
    let text = holds_text(alloc, &named, least)?;
    let mut report = Report::empty();
    report.query = Some(query);
    report.proof = Some(certificate);
    report.least = least;
    Ok(Answer { report, text })
}

/// That a certificate holds for its query; or `ProofFails`, with the last connection of the scan order that can be
/// boarded and whose value is too great or missing.
pub fn check_over(alloc: Global, read: ReadCertificate) -> Result<Answer, Fault>
    ensures answer { IfOk result (λ a. IsHeld read.entry.problem.now (findings_of a.report)
        a.text.items read.entry.query read.entry.certificate) }
    ensures fault { IfErr result (λ fault. fault ≢ Fault.NoMemory
        → IsBroken read.entry.problem.now fault read.entry.query read.entry.certificate) }
    ensures has_site { IfErr result (HasSite (Some (parts_of read.entry.problem.now))) }
    ensures read { IfErr result (λ fault. unread_input fault ≡ None) }
{
    let network = &read.problem.timetable.network;
    match check(alloc, &read.certificate, network, &read.query)? {
        Verdict::Fails(id) => Err(Fault::ProofFails(id)),
        Verdict::Holds => {
            let least = least(&read.certificate, network, &read.query);
            let answer = held_answer(alloc, read, least)?;
            Ok(answer)
        }
    }
}
