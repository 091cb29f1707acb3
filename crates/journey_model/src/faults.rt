//! Why a run gives no answer.
ghost use Rattle.std.specs.Prelude.{◌≡◌, Some};
ghost use Rattle.journey_model.specs.Faults.{status_of, missing_status, input_name};
ghost use Rattle.journey_model.specs.Sites.{site_of, site_of_replay};

use command_line::WordsFault;
use csv_rows::{FeedFault, Table};
use cut_file::CutFault;
use delay_table::DelayFault;
use graph_text::TextFault;
use lower_proof::ProofFault;
use plan_model::{ConnectionId, Moment, NoMemory, PlaceId};
use std::alloc::AllocError;
use trip_replay::ReplayFault;

/// A file that a command reads.
#[derive(Clone, Copy, Debug, PartialEq, Eq)]
pub enum Input {
    /// The file of a table of the feed.
    Feed(Table),
    /// The cut file.
    Cut,
    /// The delay file.
    Delays,
    /// The graph file.
    Graph,
    /// The proof file.
    Proof,
}

/// A stop that the words name.
#[derive(Clone, Copy, Debug, PartialEq, Eq)]
pub enum Which {
    /// That of `--from`.
    From,
    /// That of `--to`.
    To,
}

/// What there was too much of.
#[derive(Clone, Copy, Debug, PartialEq, Eq)]
pub enum LimitKind {
    /// Bytes of a file.
    Bytes(Input),
    /// Rows of a table of the feed.
    Rows(Table),
    /// Rows of the cut file.
    CutRows,
    /// Connections of the window.
    Connections,
    /// Pairs of a connection of the window and a way into the place that it leaves.
    Entries,
}

/// Why a run gives no answer.
#[derive(Clone, Copy, Debug, PartialEq, Eq)]
pub enum Fault {
    /// The words are refused.
    Words(WordsFault),
    /// A table of the feed is faulty.
    Feed(FeedFault),
    /// The cut file is faulty.
    Cut(CutFault),
    /// A file is missing.
    Missing(Input),
    /// The delay file is faulty.
    Delays(DelayFault),
    /// No stop has this name.
    UnknownStop(Which),
    /// There is more than is taken, and how much.
    Limit(LimitKind, u64),
    /// A file cannot be read.
    Read(Input),
    /// No strategy reaches the target by the deadline whatever the delays.
    NoSafe,
    /// The graph file is faulty.
    GraphFile(TextFault),
    /// The graph cannot be followed with these delays.
    Replay(ReplayFault),
    /// The proof file is faulty.
    ProofFile(ProofFault),
    /// The certificate fails at this connection, whose value is too great or missing.
    ProofFails(ConnectionId),
    /// The graph is not safe: a traveller who follows it may be stuck at this place at this moment, or arrive there then, at
    /// the target, after the deadline.
    Unsafe(PlaceId, Moment),
    /// The answer cannot be written.
    Write,
    /// There is no memory.
    NoMemory,
}

/// Where in a timetable a fault is.
#[derive(Clone, Copy)]
pub enum Site {
    /// At a place, since a moment.
    Arrival(PlaceId, Moment),
    /// At a connection.
    Connection(ConnectionId),
}

impl Input {
    /// What a line calls the file.
    pub fn name(self) -> &'static str
        ensures { result.now ≡ input_name self }
    {
        match self {
            Input::Feed(table) => table.file_name(),
            Input::Cut => "cut file",
            Input::Delays => "delay file",
            Input::Graph => "graph file",
            Input::Proof => "proof file",
        }
    }

    /// The exit status of the process if the file is missing.
    fn missing_status(self) -> u8
        ensures { result ≡ missing_status self }
    {
        match self {
            Input::Feed(_) | Input::Cut => 3,
            Input::Delays => 4,
            Input::Graph => 10,
            Input::Proof => 14,
        }
    }
}

impl From<NoMemory> for Fault {
    ghost use Rattle.std.specs.Prelude.{◌≡◌};
    ghost use Rattle.journey_model.specs.declared.faults.Fault.TheVariants.{NoMemory as NoMemoryFault};

    ghost from_gives = { λ _ fault. fault ≡ NoMemoryFault };

    fn from(_: NoMemory) -> Self {
        Fault::NoMemory
    }
}

impl From<AllocError> for Fault {
    ghost use Rattle.std.specs.Prelude.{◌≡◌};
    ghost use Rattle.journey_model.specs.declared.faults.Fault.TheVariants.{NoMemory as NoMemoryFault};

    ghost from_gives = { λ _ fault. fault ≡ NoMemoryFault };

    fn from(_: AllocError) -> Self {
        Fault::NoMemory
    }
}

impl Fault {
    /// The exit status of the process, as docs/FORMATS.md lists it.
    pub fn status(self) -> u8
        ensures { result ≡ status_of (Some self) }
    {
        match self {
            Fault::NoSafe => 1,
            Fault::Words(_) => 2,
            Fault::Feed(_) | Fault::Cut(_) => 3,
            Fault::Missing(input) => input.missing_status(),
            Fault::Delays(_) => 4,
            Fault::UnknownStop(_) => 5,
            Fault::Limit(_, _) => 6,
            Fault::Read(_) => 7,
            Fault::Write => 8,
            Fault::NoMemory => 9,
            Fault::GraphFile(_) => 10,
            Fault::Replay(_) => 11,
            Fault::ProofFails(_) => 13,
            Fault::ProofFile(_) => 14,
            Fault::Unsafe(_, _) => 15,
        }
    }

    /// Where in its timetable the fault is: of a trip that is stuck, a certificate that fails and a graph that is not safe.
    /// `None` for every other fault.
    pub fn site(self) -> Option<Site>
        ensures { result ≡ site_of self }
    {
        match self {
            Fault::Replay(fault) => site_of_replay(fault),
            Fault::ProofFails(id) => Some(Site::Connection(id)),
            Fault::Unsafe(place, moment) => Some(Site::Arrival(place, moment)),
            Fault::NoSafe
            | Fault::Words(_)
            | Fault::Feed(_)
            | Fault::Cut(_)
            | Fault::Missing(_)
            | Fault::Delays(_)
            | Fault::UnknownStop(_)
            | Fault::Limit(_, _)
            | Fault::Read(_)
            | Fault::Write
            | Fault::NoMemory
            | Fault::GraphFile(_)
            | Fault::ProofFile(_) => None,
        }
    }
}

/// Where a trip is stuck.
fn site_of_replay(fault: ReplayFault) -> Option<Site>
    ensures { result ≡ site_of_replay fault }
{
    match fault {
        ReplayFault::Stuck(place, moment) => Some(Site::Arrival(place, moment)),
        ReplayFault::NotADelay(_)
        | ReplayFault::TooFew(_)
        | ReplayFault::TooMany(_)
        | ReplayFault::NoMemory => None,
    }
}
