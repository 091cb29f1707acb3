//! Certificates of a journey: lower bounds on the expected arrival of every safe strategy.
ghost use Rattle.std.specs.Prelude.{◌≡◌, ◌≤◌, IfOk, IfErr};
ghost use Rattle.journey_answers.specs.Answers.{InQuery, IsNoAnswer};
ghost use Rattle.journey_answers.specs.Certified.{AnswersCertify};
ghost use Rattle.journey_report.specs.Findings.{findings_of};

use crate::answers::{Answered, asked_of};
use journey_model::Problem;
use journey_report::Answer;
use lower_proof::{write, write_text};
use plan_model::{Percent, Start};
use std::alloc::Global;

/// The certificate of a journey: that of the query of `plan`. `NoSafe` if no strategy always reaches the target.
pub fn certify_over(alloc: Global, problem: &Problem, start: Start, alpha: Percent) -> Answered
    ensures answer { IfOk result (λ a. InQuery problem.now start.moment.0 alpha.value
        (AnswersCertify problem.now (findings_of a.report) a.text.items)) }
    ensures fault { IfErr result (IsNoAnswer problem.now start.moment.0) }
{
    let (asked, _) = asked_of(alloc, problem, start, alpha)?;
    let network = &problem.timetable.network;
    let certificate = write(alloc, network, &asked.query)?;
    let text = write_text(
        alloc,
        &certificate,
        &asked.query,
        network,
        &problem.timetable.names,
    )?;
    let mut report = asked.report();
    report.proof = Some(certificate);
    Ok(Answer { report, text })
}
