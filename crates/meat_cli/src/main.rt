//! `meat` plans journeys in timetables whose trips may arrive late.
#![tactic(auto)]

use file_ports::{HostFiles, HostSink, host_words};
use meat_engine::run;
use std::process::ExitCode;

fn main(rt: HostRuntime) -> ExitCode {
    let words = match host_words(&rt) {
        Ok(words) => words,
        Err(status) => return ExitCode::from(status),
    };
    let mut files = HostFiles::new(&rt);
    let mut out = HostSink::new(rt.stdout());
    let mut err = HostSink::new(rt.stderr());
    let report = run(rt.alloc(), &words, &mut files, &mut out, &mut err);
    ExitCode::from(report.status.0)
}
