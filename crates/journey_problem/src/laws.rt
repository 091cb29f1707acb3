//! The files of a journey have one problem, and no other file counts.
ghost use Rattle.journey_problem.specs.OneProblem.{HasOneProblem, HasOneTimetable, HasNoFault, HasOwnProblem, HasOwnFault, KeepsOwnFiles, HasProblemOfRecords, HasFaultOfRecords};

/// Two problems of a journey over the same files are one.
pub fn files_have_one_problem()
    ensures { HasOneProblem }
{}

/// Where a journey begins, or that it has no source, changes neither its timetable nor its target.
pub fn journeys_to_a_stop_have_one_timetable()
    ensures { HasOneTimetable }
{}

/// Files of which a problem is made have no fault, unless one fails to be read or there is no memory.
pub fn files_of_a_problem_have_no_fault()
    ensures { HasNoFault }
{}

/// Only the files at the paths of a journey count: where others have the same bytes at these, the problem is the same, and
/// so is the first fault.
pub fn only_own_files_count()
    ensures problem { HasOwnProblem }
    ensures fault { HasOwnFault }
{}

/// A file that is saved at a path that is none of the journey's keeps those that count.
pub fn saving_elsewhere_keeps_own_files()
    ensures { KeepsOwnFiles }
{}

/// The form of these files does not count either, such as quotes or ends of lines: where they have the same records, the
/// problem is the same, and so is the first fault.
pub fn only_records_count()
    ensures problem { HasProblemOfRecords }
    ensures fault { HasFaultOfRecords }
{}
