//! Spans against means worked out by hand.
ghost use Rattle.std.specs.Prelude.{◌≡◌, ◌<◌};
ghost use Rattle.interval_fixed.specs.Interval.{end_of_nanos};

use interval_fixed::Span;
use plan_model::{Moment, Outcome};

fn outcome(delay: u32, weight: u16) -> Outcome
    ensures { result ≡ record { delay = delay; weight = weight } }
{
    Outcome { delay, weight }
}

fn second(moment: u64) -> Span
    requires { moment < end_of_nanos }
{
    Span::exact(Moment(moment))
}

fn bounds(span: Span) -> (u64, u64) {
    (span.lo(), span.hi())
}

#[test]
fn means_are_rounded_outward(rt: HostRuntime) {
    let usual = [outcome(0, 8000), outcome(300, 1500), outcome(900, 500)];
    let exact = [second(1), second(2), second(4)];
    assert_eq!(rt;
        bounds(Span::mean(&usual, &exact)),
        (1_300_000_000, 1_300_000_000)
    );
    let spans = [
        Span::from_parts(0, 1),
        Span::from_parts(0, 1),
        Span::from_parts(0, 2),
    ];
    assert_eq!(rt; bounds(Span::mean(&usual, &spans)), (0, 2));
    let rare = [outcome(0, 9999), outcome(60, 1)];
    let spans = [Span::from_parts(0, 0), Span::from_parts(1, 1)];
    assert_eq!(rt; bounds(Span::mean(&rare, &spans)), (0, 1));
}

#[test]
fn only_the_lower_side_is_lowered(rt: HostRuntime) {
    let span = Span::from_parts(20, 22);
    assert_eq!(rt; bounds(span.lower_to(Span::from_parts(19, 23))), (19, 22));
    assert_eq!(rt; bounds(span.lower_to(Span::from_parts(21, 21))), (20, 22));
    assert_eq!(rt; span.gap(), 2);
    assert_eq!(rt; bounds(Span::default()), (0, 0));
}
