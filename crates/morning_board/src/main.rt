//! An example of a program over the crates of the planner. Its files lie in memory. One question goes through the top call, as a
//! command line would; then the timetable is read once, and asked for each quarter of an hour of a morning.
#![tactic(auto)]

use command_line::{Journey, Source};
use csv_rows::Limits;
use file_ports::{HostSink, Sink, SteadyFiles, put_all};
use journey_answers::safe_over;
use journey_model::Fault;
use journey_problem::problem_of;
use meat_engine::run;
use plan_model::{Moment, NoMemory, Percent, Start};
use std::alloc::Global;
use std::process::ExitCode;

/// The files of the example, at these paths: two trams from the Mill to the Square, and three buses on to the Airport.
const FILES: [(&str, &str); 2] = [
    (
        "timetable.csv",
        "run,step,from,to,dep,arr\n\
         t1,1,Mill,Square,2024-06-03T08:00:00,2024-06-03T08:20:00\n\
         t2,1,Mill,Square,2024-06-03T08:15:00,2024-06-03T08:35:00\n\
         b1,1,Square,Airport,2024-06-03T08:24:00,2024-06-03T08:50:00\n\
         b2,1,Square,Airport,2024-06-03T08:40:00,2024-06-03T09:06:00\n\
         b3,1,Square,Airport,2024-06-03T09:00:00,2024-06-03T09:26:00\n",
    ),
    (
        "delays.csv",
        "class,delay,weight\n*,0,8000\n*,300,1500\n*,900,500\n",
    ),
];

/// A question, in the words of the command line.
const QUESTION: &str =
    "plan --cut timetable.csv --delays delays.csv --from Mill --to Airport --at 2024-06-03T08:00:00";

/// How many bytes a read takes at most.
const PIECE: usize = 4096;

/// 2024-06-03T08:00:00, in seconds since 1970-01-01.
const EIGHT: u64 = 1_717_401_600;

/// A quarter of an hour, in seconds.
const QUARTER: u64 = 900;

/// The quarters of the morning.
const QUARTERS: u64 = 16;

/// The files in memory.
fn files_of(alloc: Global) -> Result<SteadyFiles, NoMemory> {
    let mut files = SteadyFiles::new(alloc, PIECE);
    for (path, text) in FILES {
        files.add(path, text.as_bytes())?;
    }
    Ok(files)
}

/// The words of a line, between its spaces.
fn words_of(alloc: Global, line: &str) -> Result<Vec<String>, NoMemory> {
    let mut words = Vec::new(alloc);
    for word in line.split(' ') {
        words.push(String::from_str(alloc, word)?)?;
    }
    Ok(words)
}

/// Prints the latest arrival that can be promised from each quarter of the morning on, until there is none.
fn print_morning(alloc: Global, files: &mut SteadyFiles, out: &mut impl Sink) -> Result<(), Fault> {
    let journey = Journey {
        timetable: Source::Cut("timetable.csv"),
        delays: "delays.csv",
        from: Some("Mill"),
        to: "Airport",
        start: Start {
            moment: Moment(EIGHT),
        },
    };
    let problem = problem_of(alloc, files, &journey, &Limits::standard())?;
    for quarter in 0..QUARTERS {
        let start = Start {
            moment: Moment(EIGHT + quarter * QUARTER),
        };
        match safe_over(alloc, &problem, start, Percent { value: 100 }) {
            Err(Fault::NoSafe) => return Ok(()),
            Err(fault) => return Err(fault),
            Ok(answer) => put_all(out, answer.text.as_slice()).map_err(|_failed| Fault::Write)?,
        }
    }
    Ok(())
}

fn main(rt: HostRuntime) -> ExitCode {
    let alloc = rt.alloc();
    let (Ok(mut files), Ok(words)) = (files_of(alloc), words_of(alloc, QUESTION)) else {
        return ExitCode::from(Fault::NoMemory.status());
    };
    let mut out = HostSink::new(rt.stdout());
    let mut err = HostSink::new(rt.stderr());
    let report = run(alloc, &words, &mut files, &mut out, &mut err);
    if report.fault.is_some() {
        return ExitCode::from(report.status.0);
    }
    match print_morning(alloc, &mut files, &mut out) {
        Ok(()) => ExitCode::SUCCESS,
        Err(fault) => ExitCode::from(fault.status()),
    }
}
