//! The top call.
ghost use Rattle.std.specs.Prelude.{◌≡◌, ◌<◌, map, string_bytes, option_map, Option as Optional, Some, None, IfOk, IfErr};
ghost use Rattle.std.specs.Io.KnownBytes.{Keeps};
ghost use Rattle.csv_rows.specs.Limits.{standard};
ghost use Rattle.file_ports.specs.Counts.{Rose};
ghost use Rattle.command_line.specs.Jobs.{IsJobInTime};
ghost use Rattle.command_line.specs.Shown.{wanted_job};
ghost use Rattle.journey_model.specs.Faults.{status_of};
ghost use Rattle.journey_model.specs.FaultLines.{line_of};
ghost use Rattle.journey_model.specs.Sites.{NamedParts, HasSite};
ghost use Rattle.journey_problem.specs.Files.{HasCauses};
ghost use Rattle.journey_model.specs.Known.{known_in, parts_of};
ghost use Rattle.journey_report.specs.Findings.{findings_of, no_findings};
ghost use Rattle.meat_engine.specs.Refusals.{known_of, IsRefusalBy, by_fault};
ghost use Rattle.meat_engine.specs.Received.{path_in, AnswersJob, FailsJob, IsLineWritten, IsWritten, IsRefusedWith};
ghost use Rattle.meat_engine.specs.RunPromises.{IsRun, sink_state};

use crate::asks::journey_over;
use crate::refusal::Refusal;
use crate::samples::sample;
use command_line::{Job, read_job};
use csv_rows::Limits;
use file_ports::{Failed, Files, Sink, put_all};
use journey_model::{Fault, Problem, fault_line, known_line};
use journey_report::{Answer, Report, Status};
use plan_model::{NoMemory, Timetable};
use std::alloc::Global;

/// What a job asks for, over its files.
fn answer_of<F: Files>(
    alloc: Global,
    files: &mut F,
    job: &Job,
    limits: &Limits,
) -> Result<Answer, Refusal>
    requires { IsJobInTime (wanted_job job.now) }
    ensures answer { IfOk result (λ a. AnswersJob (F.state files.old).files limits.now (wanted_job job.now)
        (findings_of a.report) a.text.items) }
    ensures fault { IfErr result (IsRefusalBy
        (FailsJob (F.state files.old).files limits.now (wanted_job job.now))) }
    ensures causes { HasCauses (path_in (wanted_job job.now))
        (F.state files.old) (F.state files.new) (by_fault result) }
{
    match *job {
        Job::Journey(journey, ask) => journey_over(alloc, files, &journey, &ask, limits),
        Job::Sample(size) => sample(alloc, size, limits),
    }
}

/// Writes a line, or a front of it if the sink fails.
fn put_line<E: Sink>(err: &mut E, line: &[u8])
    ensures { IsLineWritten (E.written err.old) (E.written err.new) (E.faults err.old) (E.faults err.new)
        line.now }
{
    // A fault of the sink changes nothing.
    match put_all(err, line) {
        Ok(()) | Err(Failed) => {}
    }
}

/// The timetable of a problem.
fn named<'a>(problem: &'a Option<Problem>) -> Option<&'a Timetable>
    ensures { known_in result ≡ option_map parts_of problem.now }
{
    match problem {
        None => None,
        Some(problem) => Some(&problem.timetable),
    }
}

/// The report of a fault, whose line is written to `err`. Without memory for the line, that is the
/// fault.
fn report_fault<E: Sink>(alloc: Global, err: &mut E, refusal: &Refusal) -> Report
    requires { HasSite (known_of refusal.now) refusal.now.fault }
    ensures status { result.status.0 ≡ status_of result.fault }
    ensures findings { findings_of result ≡ no_findings }
    ensures reported { IsRefusedWith (E.written err.old) (E.written err.new)
        (E.faults err.old) (E.faults err.new) (known_of refusal.now) refusal.now.fault result.fault }
{
    let fault = refusal.fault;
    if let Some(line) = known_line(fault) {
        put_line(err, line.as_bytes());
        return Report::bare(fault);
    }
    match fault_line(alloc, fault, named(&refusal.problem)) {
        Ok(line) => {
            put_line(err, line.as_slice());
            Report::bare(fault)
        }
        Err(NoMemory) => {
            put_line(err, b"meat: out of memory\n");
            Report::bare(Fault::NoMemory)
        }
    }
}

/// Ends with a fault, and drops its problem.
fn refuse<E: Sink>(alloc: Global, err: &mut E, refusal: Refusal) -> Report
    requires { HasSite (known_of refusal) refusal.fault }
    ensures status { result.status.0 ≡ status_of result.fault }
    ensures findings { findings_of result ≡ no_findings }
    ensures reported { IsRefusedWith (E.written err.old) (E.written err.new)
        (E.faults err.old) (E.faults err.new) (known_of refusal) refusal.fault result.fault }
{
    report_fault(alloc, err, &refusal)
}

/// Writes an answer's text.
fn print_report<O: Sink, E: Sink>(answer: Answer, out: &mut O, err: &mut E) -> Report
    ensures status { result.status.0 ≡ status_of result.fault }
    ensures findings { findings_of result ≡ findings_of answer.report }
    ensures out { IsWritten (O.written out.old) (O.written out.new) answer.text.items result.fault }
    ensures quiet { result.fault ≡ None → Keeps (E.written err.old) (E.written err.new) }
    ensures reported { (known : Optional NamedParts) → result.fault ≡ Some Fault.Write
        → IsLineWritten (E.written err.old) (E.written err.new) (E.faults err.old) (E.faults err.new)
        (line_of known Fault.Write) }
    ensures write { result.fault ≡ Some Fault.Write → Rose (O.faults out.old) (O.faults out.new) }
    ensures grew { O.faults out.old < O.faults out.new → result.fault ≡ Some Fault.Write }
{
    let Answer { mut report, text } = answer;
    match put_all(out, text.as_slice()) {
        Ok(()) => {
            report.status = Status(0);
            report.fault = None;
            report
        }
        Err(_) => {
            put_line(err, b"meat: cannot write\n");
            report.status = Status(8);
            report.fault = Some(Fault::Write);
            report
        }
    }
}

/// Runs the command that the words ask for, within these limits, none of which is above the standard
/// one. The report has the answer at status 0, and at status 8, if it could not be written; otherwise it
/// has only the fault. At status 0 `out` received the whole text of the answer, at status 8 a front of it,
/// and otherwise nothing; `err` received the line of the fault, or a front of it if `err` failed.
pub fn run_limited<F: Files, O: Sink, E: Sink>(
    alloc: Global,
    words: &[String],
    files: &mut F,
    out: &mut O,
    err: &mut E,
    limits: &Limits,
) -> Report
    ensures { IsRun limits.now (map string_bytes words.now) result
        (F.state files.old) (F.state files.new)
        (sink_state (O.written out.old) (O.faults out.old))
        (sink_state (O.written out.new) (O.faults out.new))
        (sink_state (E.written err.old) (E.faults err.old))
        (sink_state (E.written err.new) (E.faults err.new)) }
{
    let job = match read_job(words) {
        Ok(job) => job,
        Err(fault) => return refuse(alloc, err, Refusal::plain(Fault::Words(fault))),
    };
    match answer_of(alloc, files, &job, limits) {
        Err(refusal) => refuse(alloc, err, refusal),
        Ok(answer) => print_report(answer, out, err),
    }
}

/// Runs the command that the words ask for, within the standard limits, as [`run_limited`] does.
pub fn run<F: Files, O: Sink, E: Sink>(
    alloc: Global,
    words: &[String],
    files: &mut F,
    out: &mut O,
    err: &mut E,
) -> Report
    ensures { IsRun standard (map string_bytes words.now) result
        (F.state files.old) (F.state files.new)
        (sink_state (O.written out.old) (O.faults out.old))
        (sink_state (O.written out.new) (O.faults out.new))
        (sink_state (E.written err.old) (E.faults err.old))
        (sink_state (E.written err.new) (E.faults err.new)) }
{
    run_limited(alloc, words, files, out, err, &Limits::standard())
}
