//! Two runs, each over a host of its own, and how they agree.
ghost use Rattle.std.specs.Prelude.{map, string_bytes};
ghost use Rattle.meat_engine.specs.RunPromises.{IsRun, sink_state};
ghost use Rattle.run_laws.specs.Pairs.{Agree};
ghost use Rattle.run_laws.specs.Runs.{host_state, run_of};

use csv_rows::Limits;
use file_ports::{Files, Sink};
use graph_text::read_fault_is_by_rows;
use journey_problem::{
    files_have_one_problem, journeys_to_a_stop_have_one_timetable, saving_elsewhere_keeps_own_files,
};
use journey_report::Report;
use meat_engine::run_limited;
use std::alloc::Global;

/// Files, with a stream for answers and one for faults.
#[derive(Drop)]
pub struct Host<F: Files, O: Sink, E: Sink> {
    /// The files.
    pub files: F,
    /// Where answers are written.
    pub out: O,
    /// Where faults are written.
    pub err: E,
}

impl<F: Files, O: Sink, E: Sink> Host<F, O, E> {
    /// Runs the command that the words ask for, within these limits.
    pub fn run(&mut self, alloc: Global, words: &[String], limits: &Limits) -> Report
        ensures { IsRun limits.now (map string_bytes words.now) result
            (F.state self.old.files) (F.state self.new.files)
            (sink_state (O.written self.old.out) (O.faults self.old.out))
            (sink_state (O.written self.new.out) (O.faults self.new.out))
            (sink_state (E.written self.old.err) (E.faults self.old.err))
            (sink_state (E.written self.new.err) (E.faults self.new.err)) }
    {
        run_limited(
            alloc,
            words,
            &mut self.files,
            &mut self.out,
            &mut self.err,
            limits,
        )
    }
}

/// Runs these words over one host and those over another, within the same limits, and gives both reports. The same words
/// over the same bytes end alike, and what one command prints or finds, another takes.
pub fn run_both<F: Files, O: Sink, E: Sink>(
    alloc: Global,
    words: &[String],
    others: &[String],
    first: &mut Host<F, O, E>,
    second: &mut Host<F, O, E>,
    limits: &Limits,
) -> (Report, Report)
    ensures { Agree limits.now
        (run_of (map string_bytes words.now) result.0
        (host_state (F.state first.old.files) (O.written first.old.out) (O.faults first.old.out)
        (E.written first.old.err) (E.faults first.old.err))
        (host_state (F.state first.new.files) (O.written first.new.out) (O.faults first.new.out)
        (E.written first.new.err) (E.faults first.new.err)))
        (run_of (map string_bytes others.now) result.1
        (host_state (F.state second.old.files) (O.written second.old.out) (O.faults second.old.out)
        (E.written second.old.err) (E.faults second.old.err))
        (host_state (F.state second.new.files) (O.written second.new.out) (O.faults second.new.out)
        (E.written second.new.err) (E.faults second.new.err))) }
{
    files_have_one_problem();
    saving_elsewhere_keeps_own_files();
    journeys_to_a_stop_have_one_timetable();
    read_fault_is_by_rows();
    let report = first.run(alloc, words, limits);
    let other = second.run(alloc, others, limits);
    (report, other)
}
