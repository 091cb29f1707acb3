//! What a line of words asks for.
ghost use Rattle.std.specs.Prelude.{◌≡◌, ◌≤◌, ◌+◌, map, string_bytes, option_map, option_and_then, unwrap_or, Some, IfOk, IfSome};
ghost use Rattle.command_line.specs.Jobs.{promise_of, later_of, alpha_of, horizon_of, size_of, source_of, journey_of, check_of, source_or_target, ask_of, wanted_of, job_of, IsInTime, IsJobInTime};
ghost use Rattle.command_line.specs.Settings.{value_of};
ghost use Rattle.command_line.specs.Shown.{source_shown, journey_shown, ask_shown, wanted_job, answer_shown};
ghost use Rattle.command_line.specs.Values.{start_of, number_at, last_until};
ghost use Rattle.command_line.specs.declared.values.TheConstants.{LONGEST_PROMISE};

use crate::options::{Command, OptionName, option_word};
use crate::refusals::{first_bad, first_missing, first_useless};
use crate::settings::{are_settings, text_of, value_of};
use crate::values::{
    ALPHA, HORIZON, NumberRange, SIZE, read_later, read_number, read_promise, start_of,
};
use plan_model::{FeedSize, Hours, Moment, Percent, Start};
use std::fmt;

/// The percentage of a deadline if none is given.
const DEFAULT_ALPHA: u32 = 200;

/// The hours of a window if none are given.
const DEFAULT_HORIZON: u32 = 24;

/// Why words are refused, in the order in which the refusals are answered. Options go by number.
#[derive(Clone, Copy, Debug, PartialEq, Eq)]
pub enum WordsFault {
    /// The words are not a command and pairs of an option and a value, each option at most once.
    Line,
    /// There is no such command.
    UnknownCommand,
    /// The command has no use for this option.
    NotUsed(u8),
    /// The command needs this option.
    Missing(u8),
    /// The value of this option is not of its form.
    BadValue(u8),
}

impl fmt::Display for WordsFault {
    ghost use Rattle.command_line.specs.FaultTexts.{words_fault_text};

    ghost output = { λ fault. Some (words_fault_text fault) };

    fn fmt<W: fmt::Write>(&self, f: &mut fmt::Formatter<W>) -> fmt::Result {
        match *self {
            WordsFault::Line => f.write_str("words refused"),
            WordsFault::UnknownCommand => f.write_str("unknown command"),
            WordsFault::NotUsed(option) => {
                let word = option_word(option);
                write!(f, "option {word} is not used here")
            }
            WordsFault::Missing(option) => {
                let word = option_word(option);
                write!(f, "missing option {word}")
            }
            WordsFault::BadValue(option) => {
                let word = option_word(option);
                write!(f, "bad value of {word}")
            }
        }
    }
}

/// Where the connections come from.
#[derive(Clone, Copy)]
pub enum Source<'a> {
    /// The path of a cut file.
    Cut(&'a str),
    /// The path of an unpacked GTFS folder, and how many hours of departures are looked at.
    Feed(&'a str, Hours),
}

/// A journey over a timetable.
#[derive(Clone, Copy)]
pub struct Journey<'a> {
    /// Where the connections come from.
    pub timetable: Source<'a>,
    /// The path of the delay file.
    pub delays: &'a str,
    /// The stop at which the journey begins; `None` if each place is asked about.
    pub from: Option<&'a str>,
    /// The stop at which it ends.
    pub to: &'a str,
    /// The moment at which it begins.
    pub start: Start,
}

impl<'a> Journey<'a> {
    /// The stop at which the journey begins; if it has none, the stop at which it ends.
    pub fn source_or_target(&self) -> &'a str
        ensures { result.now ≡ source_or_target (journey_shown self.now) }
    {
        match self.from {
            None => self.to,
            Some(from) => from,
        }
    }
}

/// What is asked about a journey. A percentage is that of the deadline: of the least time that a plan
/// needs at worst.
#[derive(Clone, Copy)]
pub enum Ask<'a> {
    /// The least worst arrival and the deadline.
    Safe { alpha: Percent },
    /// The decision graph, ride by ride.
    Expand { alpha: Percent },
    /// The decision graph, with one table for each place.
    Plan { alpha: Percent },
    /// The trip by the decision graph of a file, with the delays that were met: `none`, or seconds that
    /// are joined by commas.
    Replay { graph: &'a str, late: &'a str },
    /// Lower bounds on the expected arrival of every safe strategy.
    Certify { alpha: Percent },
    /// Whether the lower bounds of a file hold.
    CheckProof { proof: &'a str },
    /// Bounds on the expected arrival of the decision graph of a file.
    CheckGraph { graph: &'a str },
    /// The decision graph with the least chance of an arrival after the promised moment.
    Punctual { alpha: Percent, promise: Moment },
    /// What each departure up to the last moment promises, if one has to arrive by the deadline.
    Departures { until: Moment, last: Moment },
    /// The latest moment at which one can leave and be sure to arrive by the deadline.
    Latest { until: Moment },
    /// For each place the latest moment at which one can leave it and be sure to arrive by the deadline.
    Reach { until: Moment },
}

/// What a line of words asks for.
#[derive(Clone, Copy)]
pub enum Job<'a> {
    /// Something about a journey.
    Journey(Journey<'a>, Ask<'a>),
    /// The plan of a journey over the timetable of this size that is made by rule.
    Sample(FeedSize),
}

/// The number of an option, or another if it is not given.
fn number_of(settings: &[String], option: OptionName, range: NumberRange, other: u32) -> u32
    ensures number { result ≡ unwrap_or (option_and_then (number_at range.least range.most)
        (value_of (map string_bytes settings.now) option)) other }
    ensures in_range { range.least ≤ other → other ≤ range.most → (range.least ≤ result) × (result ≤ range.most) }
{
    let Some(value) = value_of(settings, option) else {
        return other;
    };
    match read_number(value.as_bytes(), range) {
        None => other,
        Some(number) => number,
    }
}

/// The percentage of the deadline.
fn alpha_of(settings: &[String]) -> Percent
    ensures { result.value ≡ alpha_of (map string_bytes settings.now) }
{
    let value = number_of(settings, OptionName::Alpha, ALPHA, DEFAULT_ALPHA);
    Percent { value }
}

/// The hours of the window.
fn horizon_of(settings: &[String]) -> Hours
    ensures { result.value ≡ horizon_of (map string_bytes settings.now) }
{
    let value = number_of(settings, OptionName::Horizon, HORIZON, DEFAULT_HORIZON);
    Hours { value }
}

/// The size of a feed that is made.
fn size_of(settings: &[String]) -> FeedSize
    ensures { result.value ≡ size_of (map string_bytes settings.now) }
{
    let value = number_of(settings, OptionName::Size, SIZE, SIZE.least);
    FeedSize { value }
}

/// Where the connections come from.
fn source_of(settings: &[String]) -> Source<'_>
    ensures { source_shown result ≡ source_of (map string_bytes settings.now) }
{
    match value_of(settings, OptionName::Feed) {
        None => Source::Cut(text_of(settings, OptionName::Cut)),
        Some(folder) => Source::Feed(folder, horizon_of(settings)),
    }
}

/// The journey of a command.
fn journey_of(settings: &[String]) -> Journey<'_>
    ensures { journey_shown result ≡ journey_of (map string_bytes settings.now) }
{
    Journey {
        timetable: source_of(settings),
        delays: text_of(settings, OptionName::Delays),
        from: value_of(settings, OptionName::From),
        to: text_of(settings, OptionName::To),
        start: start_of(settings),
    }
}

/// The moment by which one has promised to be there.
fn promise_of(settings: &[String]) -> Moment
    ensures promise { result.0 ≡ promise_of (map string_bytes settings.now) }
    ensures in_range { (start_of (map string_bytes settings.now) ≤ result.0)
        × (result.0 ≤ start_of (map string_bytes settings.now) + LONGEST_PROMISE) }
{
    match read_promise(settings) {
        None => start_of(settings).moment,
        Some(promise) => promise,
    }
}

/// The moment of an option, which is not before the start.
fn later_of(settings: &[String], option: OptionName) -> Moment
    ensures later { result.0 ≡ later_of (map string_bytes settings.now) option }
    ensures in_range { (start_of (map string_bytes settings.now) ≤ result.0) × (result.0 ≤ last_until) }
{
    match read_later(settings, option) {
        None => start_of(settings).moment,
        Some(moment) => moment,
    }
}

/// What is to be checked: the decision graph of a file, or else the certificate of one.
fn check_of(settings: &[String]) -> Ask<'_>
    ensures { ask_shown result ≡ check_of (map string_bytes settings.now) }
{
    match value_of(settings, OptionName::Graph) {
        None => Ask::CheckProof {
            proof: text_of(settings, OptionName::Proof),
        },
        Some(graph) => Ask::CheckGraph { graph },
    }
}

/// What a command with these settings asks about a journey, if it is about one.
fn ask_of(command: Command, settings: &[String]) -> Option<Ask<'_>>
    ensures asked { option_map ask_shown result ≡ ask_of command (map string_bytes settings.now) }
    ensures in_time { IfSome result (λ ask. IsInTime (start_of (map string_bytes settings.now)) (ask_shown ask)) }
{
    match command {
        Command::Safe => Some(Ask::Safe {
            alpha: alpha_of(settings),
        }),
        Command::Expand => Some(Ask::Expand {
            alpha: alpha_of(settings),
        }),
        Command::Plan => Some(Ask::Plan {
            alpha: alpha_of(settings),
        }),
        Command::Replay => Some(Ask::Replay {
            graph: text_of(settings, OptionName::Graph),
            late: text_of(settings, OptionName::Late),
        }),
        Command::Certify => Some(Ask::Certify {
            alpha: alpha_of(settings),
        }),
        Command::Check => Some(check_of(settings)),
        Command::Punctual => Some(Ask::Punctual {
            alpha: alpha_of(settings),
            promise: promise_of(settings),
        }),
        Command::Departures => Some(Ask::Departures {
            until: later_of(settings, OptionName::Until),
            last: later_of(settings, OptionName::Last),
        }),
        Command::Latest => Some(Ask::Latest {
            until: later_of(settings, OptionName::Until),
        }),
        Command::Reach => Some(Ask::Reach {
            until: later_of(settings, OptionName::Until),
        }),
        Command::Sample => None,
    }
}

/// What a command with these settings asks for.
fn job_of(command: Command, settings: &[String]) -> Job<'_>
    ensures wanted { wanted_job result ≡ wanted_of command (map string_bytes settings.now) }
    ensures in_time { IsJobInTime (wanted_job result) }
{
    match ask_of(command, settings) {
        None => Job::Sample(size_of(settings)),
        Some(ask) => Job::Journey(journey_of(settings), ask),
    }
}

/// What the words ask for; or the first reason in the order of `WordsFault` why they are refused, and of one kind the option
/// with the least number.
pub fn read_job(words: &[String]) -> Result<Job<'_>, WordsFault>
    ensures job { answer_shown result ≡ job_of (map string_bytes words.now) }
    ensures in_time { IfOk result (λ job. IsJobInTime (wanted_job job)) }
{
    let [name, settings @ ..] = words else {
        return Err(WordsFault::Line);
    };
    if !are_settings(settings) {
        return Err(WordsFault::Line);
    }
    let Some(command) = Command::named(name.as_str()) else {
        return Err(WordsFault::UnknownCommand);
    };
    if let Some(option) = first_useless(command, settings) {
        return Err(WordsFault::NotUsed(option.number()));
    }
    if let Some(option) = first_missing(command, settings) {
        return Err(WordsFault::Missing(option.number()));
    }
    if let Some(option) = first_bad(settings) {
        return Err(WordsFault::BadValue(option.number()));
    }
    Ok(job_of(command, settings))
}
