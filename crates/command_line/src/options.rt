//! The commands and the options by their words.
ghost use Rattle.std.specs.Prelude.{◌≡◌, Some};
ghost use Rattle.command_line.specs.Options.{option_name, option_number, option_word, option_numbered, option_named, command_word, command_named};
ghost use Rattle.command_line.specs.Uses.{own_of, use_of, on_journey, on_made};

/// What the program can be asked for.
#[derive(Clone, Copy, Debug, PartialEq, Eq)]
pub enum Command {
    /// To print the least worst arrival of a journey and its deadline.
    Safe,
    /// To make the decision graph of a journey, ride by ride.
    Expand,
    /// To make the decision graph of a journey, with one table for each place.
    Plan,
    /// To follow a decision graph as the delays come.
    Replay,
    /// To make a certificate: lower bounds on the expected arrival of every safe strategy.
    Certify,
    /// To check a certificate, or to print the bounds of a decision graph.
    Check,
    /// To make the decision graph with the least chance of an arrival after a promised moment.
    Punctual,
    /// To print what each departure of a stretch of time promises.
    Departures,
    /// To print how late one can leave.
    Latest,
    /// To print how late one can leave each place, and when one can expect to arrive from there.
    Reach,
    /// To plan a journey over a timetable that is made by rule.
    Sample,
}

/// An option of the command line.
#[derive(Clone, Copy, Debug, PartialEq, Eq)]
pub enum OptionName {
    /// The path of a cut file.
    Cut,
    /// The path of an unpacked GTFS folder.
    Feed,
    /// The path of a delay file.
    Delays,
    /// The stop at which the journey begins.
    From,
    /// The stop at which it ends.
    To,
    /// The moment at which it begins.
    At,
    /// The deadline, in percent of the least time that a plan needs at worst.
    Alpha,
    /// How many hours of departures are looked at.
    Horizon,
    /// The path of a graph file.
    Graph,
    /// The delays that were met.
    Late,
    /// The size of a feed that is made.
    Size,
    /// The path of a proof file, which has a certificate.
    Proof,
    /// The moment by which one has promised to be there.
    By,
    /// The deadline, as a moment.
    Until,
    /// The last moment at which departures are looked for.
    Last,
}

/// All commands.
const COMMANDS: [Command; 11] = [
    Command::Safe,
    Command::Expand,
    Command::Plan,
    Command::Replay,
    Command::Certify,
    Command::Check,
    Command::Punctual,
    Command::Departures,
    Command::Latest,
    Command::Reach,
    Command::Sample,
];

/// The options by their numbers.
pub(crate) const OPTIONS: [OptionName; 15] = [
    OptionName::Cut,
    OptionName::Feed,
    OptionName::Delays,
    OptionName::From,
    OptionName::To,
    OptionName::At,
    OptionName::Alpha,
    OptionName::Horizon,
    OptionName::Graph,
    OptionName::Late,
    OptionName::Size,
    OptionName::Proof,
    OptionName::By,
    OptionName::Until,
    OptionName::Last,
];

/// What a command does with an option.
#[derive(Clone, Copy, Debug, PartialEq, Eq)]
pub enum Use {
    /// It cannot do without it.
    Needed,
    /// It takes it if it is given.
    Optional,
    /// It has no use for it.
    Unused,
    /// It needs one of this option and the other. Where both are given it has no use for the one with the
    /// lesser number, and if neither is it asks for the one with the greater.
    OneOf(OptionName),
    /// It takes it beside the other option, and has no use for it without.
    With(OptionName),
}

/// What a command about a journey does with the options that not each of them takes.
#[derive(Clone, Copy)]
struct OwnUses {
    from: Use,
    alpha: Use,
    graph: Use,
    late: Use,
    proof: Use,
    by: Use,
    until: Use,
    last: Use,
}

/// None of them is taken.
const NO_OWN: OwnUses = OwnUses {
    from: Use::Unused,
    alpha: Use::Unused,
    graph: Use::Unused,
    late: Use::Unused,
    proof: Use::Unused,
    by: Use::Unused,
    until: Use::Unused,
    last: Use::Unused,
};

impl Command {
    /// The command that a word names.
    pub(crate) fn named(word: &str) -> Option<Command>
        ensures { result ≡ command_named word.now }
    {
        COMMANDS
            .iter()
            .copied()
            .find(|command| word == command.word())
    }

    /// The word of a command.
    fn word(self) -> &'static str
        ensures { result.now ≡ command_word self }
    {
        match self {
            Command::Safe => "safe",
            Command::Expand => "expand",
            Command::Plan => "plan",
            Command::Replay => "replay",
            Command::Certify => "certify",
            Command::Check => "check",
            Command::Punctual => "punctual",
            Command::Departures => "departures",
            Command::Latest => "latest",
            Command::Reach => "reach",
            Command::Sample => "sample",
        }
    }

    /// What a command about a journey does with the options that not each of them takes.
    fn own_uses(self) -> Option<OwnUses>
        ensures { result ≡ own_of self }
    {
        match self {
            Command::Safe | Command::Expand | Command::Plan | Command::Certify => Some(OwnUses {
                from: Use::Needed,
                alpha: Use::Optional,
                ..NO_OWN
            }),
            Command::Replay => Some(OwnUses {
                from: Use::Needed,
                graph: Use::Needed,
                late: Use::Needed,
                ..NO_OWN
            }),
            Command::Check => Some(OwnUses {
                from: Use::Needed,
                graph: Use::OneOf(OptionName::Proof),
                proof: Use::OneOf(OptionName::Graph),
                ..NO_OWN
            }),
            Command::Punctual => Some(OwnUses {
                from: Use::Needed,
                alpha: Use::Optional,
                by: Use::Needed,
                ..NO_OWN
            }),
            Command::Departures => Some(OwnUses {
                from: Use::Needed,
                until: Use::Needed,
                last: Use::Needed,
                ..NO_OWN
            }),
            Command::Latest => Some(OwnUses {
                from: Use::Needed,
                until: Use::Needed,
                ..NO_OWN
            }),
            Command::Reach => Some(OwnUses {
                until: Use::Needed,
                ..NO_OWN
            }),
            Command::Sample => None,
        }
    }

    /// What the command does with an option.
    pub fn use_of(self, option: OptionName) -> Use
        ensures { result ≡ use_of self option }
    {
        match self.own_uses() {
            None => on_made(option),
            Some(own) => on_journey(own, option),
        }
    }
}

/// What a command about a journey does with an option.
fn on_journey(own: OwnUses, option: OptionName) -> Use
    ensures { result ≡ on_journey own option }
{
    match option {
        OptionName::Cut => Use::OneOf(OptionName::Feed),
        OptionName::Feed => Use::OneOf(OptionName::Cut),
        OptionName::Delays | OptionName::To | OptionName::At => Use::Needed,
        OptionName::From => own.from,
        OptionName::Alpha => own.alpha,
        OptionName::Horizon => Use::With(OptionName::Feed),
        OptionName::Graph => own.graph,
        OptionName::Late => own.late,
        OptionName::Size => Use::Unused,
        OptionName::Proof => own.proof,
        OptionName::By => own.by,
        OptionName::Until => own.until,
        OptionName::Last => own.last,
    }
}

/// What a command about a made timetable does with an option.
fn on_made(option: OptionName) -> Use
    ensures { result ≡ on_made option }
{
    match option {
        OptionName::Size => Use::Needed,
        OptionName::Cut
        | OptionName::Feed
        | OptionName::Delays
        | OptionName::From
        | OptionName::To
        | OptionName::At
        | OptionName::Alpha
        | OptionName::Horizon
        | OptionName::Graph
        | OptionName::Late
        | OptionName::Proof
        | OptionName::By
        | OptionName::Until
        | OptionName::Last => Use::Unused,
    }
}

impl OptionName {
    /// The word of an option.
    pub fn name(self) -> &'static str
        ensures { result.now ≡ option_name self }
    {
        match self {
            OptionName::Cut => "--cut",
            OptionName::Feed => "--feed",
            OptionName::Delays => "--delays",
            OptionName::From => "--from",
            OptionName::To => "--to",
            OptionName::At => "--at",
            OptionName::Alpha => "--alpha",
            OptionName::Horizon => "--horizon",
            OptionName::Graph => "--graph",
            OptionName::Late => "--late",
            OptionName::Size => "--size",
            OptionName::Proof => "--proof",
            OptionName::By => "--by",
            OptionName::Until => "--until",
            OptionName::Last => "--last",
        }
    }

    /// The number of the option, from 1 on. Refusals that name an option name the one with the least number.
    pub fn number(self) -> u8
        ensures { result ≡ option_number self }
    {
        match self {
            OptionName::Cut => 1,
            OptionName::Feed => 2,
            OptionName::Delays => 3,
            OptionName::From => 4,
            OptionName::To => 5,
            OptionName::At => 6,
            OptionName::Alpha => 7,
            OptionName::Horizon => 8,
            OptionName::Graph => 9,
            OptionName::Late => 10,
            OptionName::Size => 11,
            OptionName::Proof => 12,
            OptionName::By => 13,
            OptionName::Until => 14,
            OptionName::Last => 15,
        }
    }
}

/// The option that a word names.
pub(crate) fn option_named(word: &str) -> Option<OptionName>
    ensures { result ≡ option_named word.now }
{
    OPTIONS.iter().copied().find(|option| word == option.name())
}

/// The option of this number.
fn option_numbered(number: u8) -> Option<OptionName>
    ensures { result ≡ option_numbered number }
{
    OPTIONS
        .iter()
        .copied()
        .find(|option| option.number() == number)
}

/// The word of the option with this number; the empty text if no option has it.
pub fn option_word(number: u8) -> &'static str
    ensures { result.now ≡ option_word number }
{
    match option_numbered(number) {
        None => "",
        Some(option) => option.name(),
    }
}
