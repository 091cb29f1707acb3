//! Runs of the top call over files in memory, for the crates of tests: their words and files, what they print, and
//! whether that is what is expected. The files of a small folder, Old Town, are in `folder`, and scenes over them
//! in `scenes`.
#![tactic(auto)]

mod folder;
mod scenes;

ghost use Rattle.std.specs.Prelude.{◌<◌};

pub use folder::{FOLDER_PLAN, FOLDER_PLAN_WORDS, old_town, source_of};
use meat_engine::{Fault, run};
use memory_ports::{MemoryFiles, MemorySink};
use plan_model::List;
pub use scenes::{
    CALENDAR, CALENDAR_DATES, CERTIFICATE, CHECK, CUT, DELAYS, FREQUENCIES, GRAPH, PLAN, REPLAY,
    ROUTES, SAFE, SMALL_PLAN, STOP_TIMES, STOPS, Scene, SceneFile, TRANSFERS, TRIPS,
};
use std::alloc::Global;
use std::test::Fail;

/// A file: its path and its text.
pub type Source<'a> = (&'a str, &'a str);

/// How a run ended: its status and fault, its answer, and what it wrote to the standard error.
#[derive(Drop)]
pub struct Output {
    pub status: u8,
    pub fault: Option<Fault>,
    pub out: String,
    pub err: String,
}

/// More bytes than any text of a test has.
pub const ROOM: usize = 1 << 13;

/// How many bytes a read gives and a write takes, at most.
pub const PIECE: usize = 64;

/// On time 8,000 times in 10,000, five minutes late 1,500 times, and a quarter of an hour 500 times.
pub const USUAL_DELAYS: &str = "class,delay,weight\n*,0,8000\n*,300,1500\n*,900,500\n";

/// The files of a ride that is followed by one of two others.
pub const CHANGE: [Source<'static>; 2] = [
    (
        "c",
        "run,step,from,to,dep,arr\nr1,1,A,B,2024-06-03T08:00:00,2024-06-03T08:20:00\nr2,1,B,T,2024-06-03T08:24:00,2024-06-03T08:50:00\nr3,1,B,T,2024-06-03T08:40:00,2024-06-03T09:06:00\n",
    ),
    ("d", USUAL_DELAYS),
];

/// The plan of `CHANGE`, from A at 08:00:00 to T.
pub const CHANGE_PLAN: &str =
    "graph,1,A,T,2024-06-03T08:00:00,2024-06-03T10:42:00,2024-06-03T08:54:42.000000000,2024-06-03T08:54:42.000000000\nstart,2024-06-03T08:00:00,r1,1,2024-06-03T08:00:00,1,B,2024-06-03T08:20:00\nplace,B,120,2,,,,\nleg,2024-06-03T08:22:00,r2,1,2024-06-03T08:24:00,1,T,2024-06-03T08:50:00\nleg,2024-06-03T08:38:00,r3,1,2024-06-03T08:40:00,1,T,2024-06-03T09:06:00\n";

/// The words of a line, between its spaces.
pub fn words_of(alloc: Global, line: &str) -> Result<Vec<String>, Fail> {
    let mut words = Vec::new(alloc);
    for word in line.split(' ') {
        if !word.is_empty() {
            words.push(String::from_str(alloc, word)?)?;
        }
    }
    Ok(words)
}

/// Files with these texts.
pub fn files_of(alloc: Global, sources: &[Source]) -> Result<MemoryFiles, Fail> {
    let mut files = MemoryFiles::new(alloc, PIECE);
    for (path, text) in sources {
        files.add(path, text.as_bytes())?;
    }
    Ok(files)
}

/// The output of a run, by how it ended and its two sinks.
pub fn output_by(
    alloc: Global,
    end: (u8, Option<Fault>),
    out: &MemorySink,
    err: &MemorySink,
) -> Result<Output, Fail> {
    let (Ok(answer), Ok(line)) = (
        std::str::from_utf8(out.bytes()),
        std::str::from_utf8(err.bytes()),
    ) else {
        return Err("no text".into());
    };
    let (status, fault) = end;
    Ok(Output {
        status,
        fault,
        out: String::from_str(alloc, answer)?,
        err: String::from_str(alloc, line)?,
    })
}

/// The status and the fault that a run ended with.
fn end_of(
    alloc: Global,
    words: &[String],
    files: &mut MemoryFiles,
    out: &mut MemorySink,
    err: &mut MemorySink,
) -> (u8, Option<Fault>) {
    let report = run(alloc, words, files, out, err);
    (report.status.0, report.fault)
}

/// What a line of words prints over some files: each sink takes this many bytes at a time, and the writes of these
/// numbers fail, from 1 on.
pub fn output_where(
    alloc: Global,
    files: &mut MemoryFiles,
    line: &str,
    piece: usize,
    out_fails: &[u32],
    err_fails: &[u32],
) -> Result<Output, Fail>
    requires { 0 < piece }
{
    let words = words_of(alloc, line)?;
    let out_fails = List::from_vec(Vec::from_slice(alloc, out_fails)?);
    let err_fails = List::from_vec(Vec::from_slice(alloc, err_fails)?);
    let mut out = MemorySink::new(alloc, piece, ROOM, out_fails)?;
    let mut err = MemorySink::new(alloc, piece, ROOM, err_fails)?;
    let end = end_of(alloc, words.as_slice(), files, &mut out, &mut err);
    output_by(alloc, end, &out, &err)
}

/// What a line of words prints over some files.
pub fn output_over(alloc: Global, files: &mut MemoryFiles, line: &str) -> Result<Output, Fail> {
    output_where(alloc, files, line, PIECE, &[], &[])
}

/// What a line of words prints over files with these texts.
pub fn output_of(alloc: Global, sources: &[Source], line: &str) -> Result<Output, Fail> {
    let mut files = files_of(alloc, sources)?;
    output_over(alloc, &mut files, line)
}

/// Fails unless a run had this status, answer and line.
pub fn is_output(
    alloc: Global,
    case: &str,
    output: &Output,
    status: u8,
    out: &str,
    err: &str,
) -> Result<(), Fail> {
    let Output {
        status: found,
        out: answer,
        err: line,
        ..
    } = output;
    if *found == status && answer.as_str() == out && line.as_str() == err {
        return Ok(());
    }
    Err(format!(in alloc; "{case}: {found} {answer} {line}")?.into())
}

/// Fails unless a line of words over these files gives this answer.
pub fn answers(alloc: Global, sources: &[Source], line: &str, out: &str) -> Result<(), Fail> {
    let output = output_of(alloc, sources, line)?;
    is_output(alloc, line, &output, 0, out, "")
}

/// Fails unless a line of words over these files gives an answer that begins like this.
pub fn begins(alloc: Global, sources: &[Source], line: &str, front: &str) -> Result<(), Fail> {
    let output = output_of(alloc, sources, line)?;
    if output.out.as_str().starts_with(front) {
        return is_output(alloc, line, &output, 0, output.out.as_str(), "");
    }
    Err(format!(in alloc; "{line}: {}", output.out)?.into())
}

/// Fails unless a line of words over these files is refused with this status and line.
pub fn refuses(
    alloc: Global,
    sources: &[Source],
    line: &str,
    status: u8,
    err: &str,
) -> Result<(), Fail> {
    let output = output_of(alloc, sources, line)?;
    is_output(alloc, line, &output, status, "", err)
}

/// Fails unless a line of words over these files, of which one fails at a call, ends with status 7 and this line.
pub fn cannot_read(
    alloc: Global,
    sources: &[Source],
    failing: (&str, u32),
    line: &str,
    err: &str,
) -> Result<(), Fail> {
    let mut files = files_of(alloc, sources)?;
    files.fail(failing.0, failing.1)?;
    let output = output_over(alloc, &mut files, line)?;
    is_output(alloc, line, &output, 7, "", err)
}
