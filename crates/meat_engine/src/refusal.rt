//! Why a command has no answer.
ghost use Rattle.std.specs.Prelude.{◌≡◌, None};

use journey_model::{Fault, Problem};

/// Why there is no answer, and the problem whose names the line of the fault uses, if there is one.
#[derive(Drop)]
pub(crate) struct Refusal {
    pub fault: Fault,
    pub problem: Option<Problem>,
}

impl Refusal {
    /// A fault before there is a problem.
    pub(crate) fn plain(fault: Fault) -> Refusal
        ensures fault { result.fault ≡ fault }
        ensures problem { result.problem ≡ None }
    {
        Refusal {
            fault,
            problem: None,
        }
    }
}
