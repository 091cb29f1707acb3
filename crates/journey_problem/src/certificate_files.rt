//! The certificate that a command reads.
ghost use Rattle.std.specs.Prelude.{◌≡◌, ◌≢◌, Some, None, IfOk, IfErr};
ghost use Rattle.journey_model.specs.Faults.{MayBeUnread, unread_input};
ghost use Rattle.journey_problem.specs.Files.{HasCauses, IsOfInput};
ghost use Rattle.journey_problem.specs.CertificateFiles.{IsCertificateText, FailsText, IsCertificateFile, FailsCertificate};

use crate::inputs::load_bytes;
use csv_rows::Limits;
use file_ports::Files;
use journey_model::{Fault, Input, Problem};
use lower_proof::{LowerBounds, ProofFault, read_text};
use plan_model::{Moment, Query};
use std::alloc::Global;

/// The query and the certificate of a text.
fn certificate_of_bytes(
    alloc: Global,
    bytes: &[u8],
    problem: &Problem,
    start: Moment,
) -> Result<(Query, LowerBounds), Fault>
    ensures certificate { IfOk result (λ f. IsCertificateText problem.now start.0 bytes.now f.0 f.1) }
    ensures fault { IfErr result (λ fault. fault ≢ Fault.NoMemory
        → FailsText problem.now start.0 bytes.now fault) }
    ensures stage { IfErr result (λ fault. fault ≢ Fault.NoMemory → IsOfInput Input.Proof fault) }
    ensures read { IfErr result (λ fault. unread_input fault ≡ None) }
{
    match read_text(
        alloc,
        bytes,
        &problem.timetable.network,
        &problem.timetable.names,
        problem.source,
        problem.target,
        start,
    ) {
        Ok(found) => Ok(found),
        Err(ProofFault::NoMemory) => Err(Fault::NoMemory),
        Err(fault) => Err(Fault::ProofFile(fault)),
    }
}

/// The query and the certificate of the file of this path, for a journey that starts then; or the first of its faults:
/// `Read`, `Missing`, `Limit` for its bytes, and then `ProofFile`.
pub fn read_certificate_file<F: Files>(
    alloc: Global,
    files: &mut F,
    path: &str,
    problem: &Problem,
    start: Moment,
    limits: &Limits,
) -> Result<(Query, LowerBounds), Fault>
    ensures certificate { IfOk result (λ f. IsCertificateFile (F.state files.old).files limits.now start.0
        path.now problem.now f.0 f.1) }
    ensures fault { IfErr result (λ fault. fault ≢ Fault.NoMemory
        → FailsCertificate (F.state files.old).files limits.now start.0 path.now problem.now fault) }
    ensures own { IfErr result (MayBeUnread Input.Proof) }
    ensures stage { IfErr result (λ fault. fault ≢ Fault.NoMemory → IsOfInput Input.Proof fault) }
    ensures causes { HasCauses (λ other. Some path.now) (F.state files.old) (F.state files.new) result }
{
    let bytes = load_bytes(alloc, files, path, Input::Proof, limits)?;
    certificate_of_bytes(alloc, bytes.as_slice(), problem, start)
}
