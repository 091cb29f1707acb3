//! Journeys over a folder whose rows are in another order, through the top call.
use std::test::Fail;
use test_runs::{
    FOLDER_PLAN, FOLDER_PLAN_WORDS, ROUTES, STOP_TIMES, STOPS, Source, TRIPS, USUAL_DELAYS,
    answers, source_of,
};

const CALENDAR: Source<'static> = (
    "f/calendar.txt",
    "service_id,monday,tuesday,wednesday,thursday,friday,saturday,sunday,start_date,end_date\nWK,1,1,1,1,1,0,0,20240101,20241231\nWE,0,0,0,0,0,1,1,20240101,20241231\n",
);

const CALENDAR_TURNED: Source<'static> = (
    "f/calendar.txt",
    "service_id,monday,tuesday,wednesday,thursday,friday,saturday,sunday,start_date,end_date\nWE,0,0,0,0,0,1,1,20240101,20241231\nWK,1,1,1,1,1,0,0,20240101,20241231\n",
);

const DATES: Source<'static> = (
    "f/calendar_dates.txt",
    "service_id,date,exception_type\nWK,20240602,2\nWK,20240604,2\nWE,20240604,1\n",
);

const DATES_TURNED: Source<'static> = (
    "f/calendar_dates.txt",
    "service_id,date,exception_type\nWE,20240604,1\nWK,20240604,2\nWK,20240602,2\n",
);

const TRANSFERS: Source<'static> = (
    "f/transfers.txt",
    "from_stop_id,to_stop_id,transfer_type,min_transfer_time\nS1a,S1b,2,120\nS1b,S1a,2,60\nMIL,AIR,2,7200\n",
);

const TRANSFERS_TURNED: Source<'static> = (
    "f/transfers.txt",
    "from_stop_id,to_stop_id,transfer_type,min_transfer_time\nMIL,AIR,2,7200\nS1b,S1a,2,60\nS1a,S1b,2,120\n",
);

const ROUTES_TURNED: Source<'static> = (
    "f/routes.txt",
    "route_id,route_short_name,route_type\nB7,7,3\nT1,1,0\n",
);

const STOP_TIMES_TURNED: Source<'static> = (
    "f/stop_times.txt",
    "trip_id,stop_sequence,stop_id,arrival_time,departure_time,pickup_type\nb201,2,AIR,09:06:00\nt100,20,S1a,8:20:00,8:21:00,0\nb200,2,AIR,08:50:00,08:50:00,\nt100,15,HLF,,,\nb201,1,S1b,08:40:00,08:40:00,\nt100,10,MIL,8:00:00,8:00:00,0\nb200,1,S1b,08:24:00,08:24:00,\n",
);

/// The words of the plan of Old Town are answered alike over both orders.
#[test]
fn plans_over_rows_in_another_order(rt: HostRuntime) -> Result<(), Fail> {
    let delays = ("d", USUAL_DELAYS);
    let in_order = [
        source_of(STOPS),
        source_of(ROUTES),
        source_of(TRIPS),
        source_of(STOP_TIMES),
        CALENDAR,
        DATES,
        TRANSFERS,
        delays,
    ];
    let turned = [
        source_of(STOPS),
        ROUTES_TURNED,
        source_of(TRIPS),
        STOP_TIMES_TURNED,
        CALENDAR_TURNED,
        DATES_TURNED,
        TRANSFERS_TURNED,
        delays,
    ];
    answers(rt.alloc(), &in_order, FOLDER_PLAN_WORDS, FOLDER_PLAN)?;
    answers(rt.alloc(), &turned, FOLDER_PLAN_WORDS, FOLDER_PLAN)
}
