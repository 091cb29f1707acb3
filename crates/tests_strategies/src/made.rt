//! Networks that are made by a seed, as the texts of a cut file and of a delay file.
use plan_model::Moment;
use std::alloc::Global;
use std::test::Fail;

fn multiplier() -> u64 {
    6_364_136_223_846_793_005
}

fn increment() -> u64 {
    1_442_695_040_888_963_407
}

/// What follows on a state of the numbers.
fn next_state(state: u64) -> u64 {
    state.wrapping_mul(multiplier()).wrapping_add(increment())
}

/// Numbers that follow from a seed.
#[derive(Drop)]
pub(crate) struct Numbers {
    state: u64,
}

impl Numbers {
    /// The numbers of a seed.
    pub(crate) fn new(seed: u64) -> Numbers {
        Numbers { state: seed }
    }

    /// A number below a bound.
    pub(crate) fn below(&mut self, bound: u32) -> u32 {
        self.state = next_state(self.state);
        let high = (self.state >> 33) as u32;
        high.checked_rem(bound).unwrap_or(0)
    }

    /// Whether one of this many cases comes.
    pub(crate) fn one_in(&mut self, cases: u32) -> bool {
        self.below(cases) == 0
    }
}

/// The weights of one, two or three outcomes.
const WEIGHTS: [&[u32]; 4] = [
    &[10_000],
    &[7_000, 3_000],
    &[8_000, 1_500, 500],
    &[1, 9_999],
];

/// The delays of a class.
fn push_class(
    alloc: Global,
    numbers: &mut Numbers,
    class: &str,
    text: &mut String,
) -> Result<(), Fail> {
    let weights = WEIGHTS[numbers.below(4).min(3) as usize];
    let mut delay = numbers.below(3).saturating_mul(60);
    for weight in weights {
        let row = format!(in alloc; "{class},{delay},{weight}\n")?;
        text.push_str(row.as_str())?;
        delay = delay.saturating_add(numbers.below(8).saturating_mul(60).saturating_add(60));
    }
    Ok(())
}

/// A delay file of two classes.
pub(crate) fn delay_text(alloc: Global, numbers: &mut Numbers) -> Result<String, Fail> {
    let mut text = String::new(alloc);
    text.push_str("class,delay,weight\n")?;
    push_class(alloc, numbers, "*", &mut text)?;
    push_class(alloc, numbers, "3", &mut text)?;
    Ok(text)
}

/// Where a connection is: its run, its step and its place, and when the last one arrived.
#[derive(Clone, Copy)]
struct Stop {
    run: u32,
    step: u32,
    place: u32,
    minute: u32,
}

/// A connection from a stop, and the stop where it ends.
fn push_ride(
    alloc: Global,
    numbers: &mut Numbers,
    places: u32,
    stop: Stop,
    text: &mut String,
) -> Result<Stop, Fail> {
    let Stop {
        run,
        step,
        place,
        minute,
    } = stop;
    let to = numbers.below(places);
    let dep = minute.saturating_add(numbers.below(4)).min(59);
    let arr = dep.saturating_add(numbers.below(8)).min(59);
    let class = if numbers.one_in(3) { "3" } else { "*" };
    let board = if numbers.one_in(9) { 0 } else { 1 };
    let exit = if numbers.one_in(9) { 0 } else { 1 };
    let change = numbers.below(4).saturating_mul(60);
    let row = format!(in alloc;
        "r{run},{step},p{place},p{to},1970-01-15T00:{dep}:00,1970-01-15T00:{arr}:00,{class},{board},{exit},{change}\n"
    )?;
    text.push_str(row.as_str())?;
    Ok(Stop {
        run,
        step: step.saturating_add(1),
        place: to,
        minute: arr,
    })
}

/// When the first hour of a made timetable begins, two weeks after the first moment of all.
pub(crate) const FIRST: Moment = Moment(1_209_600);

/// A cut file of one to six connections between two to four places, all within an hour.
pub(crate) fn cut_text(alloc: Global, numbers: &mut Numbers) -> Result<String, Fail> {
    let mut text = String::new(alloc);
    text.push_str("run,step,from,to,dep,arr,class,board,exit,change\n")?;
    let places = numbers.below(3).saturating_add(2);
    let rides = numbers.below(6).saturating_add(1);
    let mut stop = Stop {
        run: 0,
        step: 0,
        place: 0,
        minute: 10,
    };
    for _ in 0..rides {
        if numbers.one_in(2) {
            stop = Stop {
                run: stop.run.saturating_add(1),
                step: 0,
                place: numbers.below(places),
                minute: numbers.below(40).saturating_add(10),
            };
        }
        stop = push_ride(alloc, numbers, places, stop, &mut text)?;
    }
    Ok(text)
}
