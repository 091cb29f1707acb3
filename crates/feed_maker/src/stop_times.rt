//! The stop times of a made timetable, made line by line as they are read.
ghost use Rattle.std.specs.Prelude.{◌≡◌, ◌+◌, ◌<◌, ◌≤◌, ◌++◌, min, length, take, vec_len, vec_capacity, IfOk};
ghost use Rattle.arrayvec.specs.ArrayString.{array_string_len};
ghost use Rattle.feed_maker.specs.Names.{stop_name, run_piece, place_piece, ArePlacePieces};
ghost use Rattle.feed_maker.specs.MadeTables.{stop_time_row, run_rows, line_rows, stop_times_text};

use crate::lines::{Line, Lines, PLACES, Place, RUNS, seconds_at, stop_at};
use crate::names::{Stop, Trip, clock};
use arrayvec::{ArrayString, ArrayVec};
use itoa::Buffer;
use plan_model::NoMemory;
use std::alloc::Global;

/// The first row.
const HEADER: &str = "trip_id,arrival_time,departure_time,stop_id,stop_sequence\n";

/// A piece of a row has no more bytes.
const PIECE_ROOM: usize = 40;

/// The rows of a line have no more bytes, and neither has the first row.
const LINE_ROOM: usize = 201_600;

/// The stop of a row.
fn stop_piece(stop: Stop) -> ArrayString<PIECE_ROOM>
    ensures text { result.bytes ≡ stop_name stop }
    ensures short { array_string_len result ≤ 22 }
{
    let mut digits = Buffer::new();
    let mut piece = ArrayString::new();
    match stop {
        Stop::Hub(hub) => {
            piece.push_str("H");
            piece.push_str(digits.format(hub));
        }
        Stop::Own(line, place) => {
            piece.push_str("L");
            piece.push_str(digits.format(line));
            piece.push_str("_");
            piece.push_str(digits.format(place));
        }
    }
    piece
}

/// The front of the rows of a run.
fn run_piece(trip: Trip) -> ArrayString<PIECE_ROOM>
    ensures { result.bytes ≡ run_piece trip.line.number trip.run }
{
    let mut digits = Buffer::new();
    let mut piece = ArrayString::new();
    piece.push_str("T");
    piece.push_str(digits.format(trip.line.number));
    piece.push_str("_");
    piece.push_str(digits.format(trip.run));
    piece.push_str(",");
    piece
}

/// The end of the rows at a position of a line.
fn place_piece(line: Line, place: Place) -> ArrayString<PIECE_ROOM>
    ensures { result.bytes ≡ place_piece line.number place.number }
{
    let mut digits = Buffer::new();
    let mut piece = stop_piece(stop_at(line, place));
    piece.push_str(",");
    piece.push_str(digits.format(place.number + 1));
    piece.push_str("\n");
    piece
}

/// The ends of the rows at the places of a line, for each run alike.
fn place_pieces(line: Line) -> ArrayVec<ArrayString<PIECE_ROOM>, 21>
    ensures { ArePlacePieces line.number result.items }
{
    let mut ends = ArrayVec::new();
    for place in 0..PLACES {
        ends.push(place_piece(line, Place { number: place }));
    }
    ends
}

/// Adds the row of a run at a position of its line, by the front and the end that it has.
#[tactic(auto, unfolding(crate::specs::MadeTables::stop_time_row))]
fn add_stop_time(
    text: &mut Vec<u8>,
    front: &ArrayString<PIECE_ROOM>,
    trip: Trip,
    place: Place,
    end: &ArrayString<PIECE_ROOM>,
)
    requires front { front.now.bytes ≡ run_piece trip.line.number trip.run }
    requires end { end.now.bytes ≡ place_piece trip.line.number place.number }
    requires room { vec_len text.old + 100 ≤ vec_capacity text.old }
    ensures row { text.new.items
        ≡ text.old.items ++ stop_time_row trip.line.number trip.run place.number }
    ensures longer { vec_len text.old < vec_len text.new }
    ensures short { vec_len text.new ≤ vec_len text.old + 100 }
    ensures capacity { vec_capacity text.old ≤ vec_capacity text.new }
{
    let time = clock(seconds_at(trip, place));
    text.extend_from_slice(front.as_str().as_bytes()).unwrap();
    text.extend_from_slice(&time).unwrap();
    text.extend_from_slice(&time).unwrap();
    text.extend_from_slice(end.as_str().as_bytes()).unwrap();
}

/// Adds the rows of a run, by the ends of the rows at its places.
#[tactic(auto, using(crate::proofs::JoinedLemmas::joined_steps), unfolding(crate::specs::MadeTables::run_rows))]
fn add_run(text: &mut Vec<u8>, trip: Trip, ends: &[ArrayString<PIECE_ROOM>])
    requires ends { ArePlacePieces trip.line.number ends.now }
    requires room { vec_len text.old + 2100 ≤ vec_capacity text.old }
    ensures rows { text.new.items ≡ text.old.items ++ run_rows trip.line.number trip.run }
    ensures longer { vec_len text.old < vec_len text.new }
    ensures short { vec_len text.new ≤ vec_len text.old + 2100 }
    ensures capacity { vec_capacity text.old ≤ vec_capacity text.new }
{
    let front = run_piece(trip);
    for place in 0..PLACES {
        let end = &ends[place as usize];
        add_stop_time(text, &front, trip, Place { number: place }, end);
    }
}

/// Adds the rows of a line's runs.
#[tactic(auto, using(crate::proofs::JoinedLemmas::joined_steps), unfolding(crate::specs::MadeTables::line_rows))]
fn add_line(text: &mut Vec<u8>, line: Line)
    requires room { vec_len text.old + 201600 ≤ vec_capacity text.old }
    ensures rows { text.new.items ≡ text.old.items ++ line_rows line.number }
    ensures longer { vec_len text.old < vec_len text.new }
    ensures capacity { vec_capacity text.old ≤ vec_capacity text.new }
{
    let ends = place_pieces(line);
    for run in 0..RUNS {
        add_run(text, Trip { line, run }, ends.as_slice());
    }
}

/// The times of the runs of `lines` lines at their positions.
#[tactic(auto, using(crate::proofs::JoinedLemmas::joined_steps), unfolding(crate::specs::MadeTables::stop_times_text))]
pub(crate) fn stop_times(alloc: Global, lines: Lines) -> Result<Vec<u8>, NoMemory>
    ensures { IfOk result (λ text. text.items ≡ stop_times_text lines.count) }
{
    let mut text = Vec::from_slice(alloc, HEADER.as_bytes())?;
    for line in 0..lines.count {
        text.reserve(LINE_ROOM)?;
        add_line(&mut text, Line { number: line });
    }
    Ok(text)
}

/// The stop times of a number of lines: the text that was made last, how much of it was read, and the line whose rows are
/// made next. No call on them takes memory.
#[derive(Drop)]
pub(crate) struct StopTimes {
    lines: Lines,
    next: u32,
    text: Vec<u8>,
    offset: usize,
    ghost inside: { next ≤ lines.count },
    ghost room: { 201600 ≤ vec_capacity text },
    ghost within: { offset ≤ vec_len text },
}

impl StopTimes {
    ghost use Rattle.std.specs.Prelude.{◌≡◌, ◌+◌, ◌<◌, ◌≤◌, ◌++◌, min, length, take, [], IfOk};
    ghost use Rattle.feed_maker.specs.StopTimes.{remaining_of, lines_of};
    ghost use Rattle.feed_maker.specs.MadeTables.{stop_times_text};

    /// The stop times of `lines` lines, none of them read.
    pub(crate) fn new(alloc: Global, lines: Lines) -> Result<StopTimes, NoMemory>
        ensures lines { IfOk result (λ times. lines_of times ≡ lines.count) }
    {
        let text = Vec::with_capacity(alloc, LINE_ROOM)?;
        Ok(StopTimes {
            lines,
            next: 0,
            text,
            offset: 0,
        })
    }

    /// From now on they are read from the start.
    #[tactic(auto, unfolding(crate::specs::MadeTables::stop_times_text))]
    pub(crate) fn rewind(&mut self)
        ensures lines { lines_of self.new ≡ lines_of self.old }
        ensures remaining { remaining_of self.new ≡ stop_times_text (lines_of self.old) }
    {
        self.next = 0;
        self.offset = 0;
        self.text.clear();
        self.text.extend_from_slice(HEADER.as_bytes()).unwrap();
    }

    /// Makes the rows of the next line, if all that was made is read.
    #[tactic(auto, using(crate::proofs::StopTimeLemmas::remaining_next))]
    fn fill(&mut self)
        ensures lines { lines_of self.new ≡ lines_of self.old }
        ensures remaining { remaining_of self.new ≡ remaining_of self.old }
        ensures some { self.new.offset ≡ vec_len self.new.text → remaining_of self.new ≡ [] }
    {
        if self.offset < self.text.len() || self.next == self.lines.count {
            return;
        }
        self.offset = 0;
        self.text.clear();
        add_line(&mut self.text, Line { number: self.next });
        self.next += 1;
    }

    /// Moves some bytes of the rest to the front of the buffer, none only at its end.
    #[tactic(auto, using(crate::proofs::StopTimeLemmas::remaining_after))]
    pub(crate) fn read(&mut self, buffer: &mut [u8]) -> usize
        requires { 0 < length buffer.old }
        ensures lines { lines_of self.new ≡ lines_of self.old }
        ensures bound { result ≤ length buffer.old }
        ensures bytes { remaining_of self.old ≡ take result buffer.new ++ remaining_of self.new }
        ensures end { result ≡ 0 → remaining_of self.new ≡ [] }
    {
        self.fill();
        let count = copy_front(buffer, &self.text[self.offset..]);
        self.offset += count;
        count
    }
}

/// Copies the front of `rest`, as much as fits.
fn copy_front(buffer: &mut [u8], rest: &[u8]) -> usize
    ensures count { result ≡ min (length buffer.old) (length rest.now) }
    ensures front { take result buffer.new ≡ take result rest.now }
{
    let count = buffer.len().min(rest.len());
    buffer[..count].copy_from_slice(&rest[..count]);
    count
}
