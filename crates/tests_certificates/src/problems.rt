//! The problem of a small cut file, and its fault if the delay file is missing.
use command_line::Journey;
use csv_rows::Limits;
use journey_model::{Fault, Input};
use journey_problem::problem_of;
use plan_model::{Moment, Start};
use std::alloc::Global;
use std::test::Fail;
use test_runs::{Source, files_of};

const JOURNEY: Journey<'static> = Journey {
    timetable: command_line::Source::Cut("c"),
    delays: "d",
    from: Some("A"),
    to: "T",
    start: Start {
        moment: Moment(1_717_401_600),
    },
};

const CUT: Source<'static> = (
    "c",
    "run,step,from,to,dep,arr\nr1,1,A,T,2024-06-03T08:00:00,2024-06-03T09:00:00\n",
);

const DELAYS: Source<'static> = ("d", "class,delay,weight\n*,0,10000\n");

/// How many connections the problem over these files has, and the numbers of its two stops; or the fault.
fn numbers_of(alloc: Global, sources: &[Source]) -> Result<Result<(u32, u32, u32), Fault>, Fail> {
    let mut files = files_of(alloc, sources)?;
    Ok(
        match problem_of(alloc, &mut files, &JOURNEY, &Limits::standard()) {
            Ok(problem) => Ok((
                problem.timetable.network.count(),
                problem.source.0,
                problem.target.0,
            )),
            Err(fault) => Err(fault),
        },
    )
}

#[test]
fn reads_the_problem_of_a_cut_file(rt: HostRuntime) -> Result<(), Fail> {
    let numbers = numbers_of(rt.alloc(), [CUT, DELAYS].as_slice())?;
    assert_eq!(rt; numbers.ok(), Some((1, 0, 1)));
    Ok(())
}

#[test]
fn lacks_the_delays_of_a_cut_file(rt: HostRuntime) -> Result<(), Fail> {
    let numbers = numbers_of(rt.alloc(), [CUT].as_slice())?;
    assert_eq!(rt; numbers.err(), Some(Fault::Missing(Input::Delays)));
    Ok(())
}
