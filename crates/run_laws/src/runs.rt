//! That words have one answer over files: what the contract of a run leaves open is nothing but whether
//! there was memory.
ghost use Rattle.run_laws.specs.OneRun.{HasOneEnd, HasOneRun};

use journey_problem::files_have_one_problem;

/// Two runs of the same words over files with the same bytes, which both end without a fault, report the
/// same and write the same.
pub fn words_have_one_run()
    ensures { HasOneRun }
{
    files_have_one_problem();
}

/// Two runs of the same words over files with the same bytes, in which nothing fails and there is memory
/// enough, end with one status, and write the same to both sinks, faults included.
pub fn words_have_one_end()
    ensures { HasOneEnd }
{
    files_have_one_problem();
}
