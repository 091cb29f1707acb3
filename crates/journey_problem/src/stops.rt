//! The stops of a journey.
ghost use Rattle.std.specs.Prelude.{◌≡◌};
ghost use Rattle.command_line.specs.Shown.{journey_shown};
ghost use Rattle.journey_problem.specs.Stops.{first_which};

use command_line::Journey;
use journey_model::Which;

/// Which stop of a journey is looked up first: the source, or the target if it has none.
pub(crate) fn first_which(journey: &Journey) -> Which
    ensures { result ≡ first_which (journey_shown journey.now).from }
{
    match journey.from {
        None => Which::To,
        Some(_) => Which::From,
    }
}
