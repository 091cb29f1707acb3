//! Journeys over files in memory, with what each is to print.
use csv_rows::Table;
use meat_engine::Input;

/// A file of a scene: its path, what it is to a command, its name in the line of a fault, and its text.
#[derive(Clone, Copy)]
pub struct SceneFile {
    pub path: &'static str,
    pub input: Input,
    pub name: &'static str,
    pub text: &'static str,
}

/// A line of words over some files, and the text that it prints.
#[derive(Clone, Copy)]
pub struct Scene {
    pub words: &'static str,
    pub sources: &'static [SceneFile],
    pub text: &'static str,
}

pub const STOPS: SceneFile = SceneFile {
    path: "f/stops.txt",
    input: Input::Feed(Table::Stops),
    name: "stops.txt",
    text: "\u{FEFF}stop_name,stop_id,parent_station,location_type\n\
        \"Old Town, Square\",\"S,1\",,1\n\
        Platform 1,S1a,\"S,1\",0\n\
        Platform 2,S1b,\"S,1\",\n\
        Airport,AIR,,\n\
        Mill,MIL,,0\n\
        Halfway,HLF,,0\n",
};

pub const ROUTES: SceneFile = SceneFile {
    path: "f/routes.txt",
    input: Input::Feed(Table::Routes),
    name: "routes.txt",
    text: "route_id,route_short_name,route_type\n\
        T1,1,0\n\
        B7,7,3\n",
};

pub const TRIPS: SceneFile = SceneFile {
    path: "f/trips.txt",
    input: Input::Feed(Table::Trips),
    name: "trips.txt",
    text: "route_id,service_id,trip_id\n\
        T1,WK,t100\n\
        B7,WK,b200\n\
        B7,WK,b201\n",
};

pub const STOP_TIMES: SceneFile = SceneFile {
    path: "f/stop_times.txt",
    input: Input::Feed(Table::StopTimes),
    name: "stop_times.txt",
    text: "trip_id,stop_sequence,stop_id,arrival_time,departure_time,pickup_type\n\
        t100,10,MIL,8:00:00,8:00:00,0\n\
        t100,15,HLF,,,\n\
        t100,20,S1a,8:20:00,8:21:00,0\n\
        b200,1,S1b,08:24:00,08:24:00,\n\
        b200,2,AIR,08:50:00,08:50:00,\n\
        b201,1,S1b,08:40:00,08:40:00,\n\
        b201,2,AIR,09:06:00\n",
};

pub const FREQUENCIES: SceneFile = SceneFile {
    path: "f/frequencies.txt",
    input: Input::Feed(Table::Frequencies),
    name: "frequencies.txt",
    text: "trip_id,start_time,end_time,headway_secs\n",
};

pub const CALENDAR: SceneFile = SceneFile {
    path: "f/calendar.txt",
    input: Input::Feed(Table::Calendar),
    name: "calendar.txt",
    text: "service_id,monday,tuesday,wednesday,thursday,friday,saturday,sunday,start_date,end_date\n\
        WK,1,1,1,1,1,0,0,20240101,20241231\n",
};

pub const CALENDAR_DATES: SceneFile = SceneFile {
    path: "f/calendar_dates.txt",
    input: Input::Feed(Table::CalendarDates),
    name: "calendar_dates.txt",
    text: "service_id,date,exception_type\n\
        WK,20240610,2\nWK,20240615,1\n",
};

pub const TRANSFERS: SceneFile = SceneFile {
    path: "f/transfers.txt",
    input: Input::Feed(Table::Transfers),
    name: "transfers.txt",
    text: "from_stop_id,to_stop_id,transfer_type,min_transfer_time\n\
        S1a,S1b,2,120\nS1b,S1a,2,60\n",
};

pub const DELAYS: SceneFile = SceneFile {
    path: "d",
    input: Input::Delays,
    name: "delay file",
    text: "class,delay,weight\n\
        *,0,8000\n\
        *,300,1500\n\
        *,900,500\n",
};

pub const GRAPH: SceneFile = SceneFile {
    path: "g",
    input: Input::Graph,
    name: "graph file",
    text: PLAN_TEXT,
};

pub const CUT: SceneFile = SceneFile {
    path: "c",
    input: Input::Cut,
    name: "cut file",
    text: "run,step,from,to,dep,arr\n\
        r1,1,A,B,2024-06-03T08:00:00,2024-06-03T08:20:00\n\
        r2,1,B,T,2024-06-03T08:24:00,2024-06-03T08:50:00\n\
        r3,1,B,T,2024-06-03T08:40:00,2024-06-03T09:06:00\n",
};

pub const CERTIFICATE: SceneFile = SceneFile {
    path: "p",
    input: Input::Proof,
    name: "proof file",
    text: "bounds,1,A,T,2024-06-03T08:00:00,2024-06-03T10:42:00,3\n\
        value,r1,1,2024-06-03T08:54:42.000000000\n\
        value,r2,1,2024-06-03T08:51:30.000000000\n\
        value,r3,1,2024-06-03T09:07:30.000000000\n",
};

/// The words of a plan over Old Town.
pub const PLAN_WORDS: &str =
    "plan --feed f --delays d --from MIL --to AIR --at 2024-06-03T08:00:00";

/// The text of that plan.
pub const PLAN_TEXT: &str =
    "graph,1,MIL,AIR,2024-06-03T08:00:00,2024-06-03T10:42:00,2024-06-03T08:54:42.000000000,2024-06-03T08:54:42.000000000\nstart,2024-06-03T08:00:00,20240603:t100,0,2024-06-03T08:00:00,0,\"S,1\",2024-06-03T08:20:00\nplace,\"S,1\",120,2,,,,\nleg,2024-06-03T08:22:00,20240603:b200,0,2024-06-03T08:24:00,0,AIR,2024-06-03T08:50:00\nleg,2024-06-03T08:38:00,20240603:b201,0,2024-06-03T08:40:00,0,AIR,2024-06-03T09:06:00\n";

/// A plan over a feed that has each of its tables.
pub const PLAN: Scene = Scene {
    words: PLAN_WORDS,
    sources: &[
        STOPS,
        ROUTES,
        TRIPS,
        STOP_TIMES,
        FREQUENCIES,
        CALENDAR,
        CALENDAR_DATES,
        TRANSFERS,
        DELAYS,
    ],
    text: PLAN_TEXT,
};

/// The same plan, over a feed that has none of the optional tables.
pub const SMALL_PLAN: Scene = Scene {
    words: PLAN_WORDS,
    sources: &[STOPS, ROUTES, TRIPS, STOP_TIMES, CALENDAR, DELAYS],
    text: PLAN_TEXT,
};

/// A trip by the graph of that plan.
pub const REPLAY: Scene = Scene {
    words: "replay --feed f --delays d --from MIL --to AIR --at 2024-06-03T08:00:00 --graph g --late 300,900",
    sources: &[STOPS, ROUTES, TRIPS, STOP_TIMES, CALENDAR, DELAYS, GRAPH],
    text: "ride,20240603:t100,MIL,2024-06-03T08:00:00,\"S,1\",2024-06-03T08:20:00,300,2024-06-03T08:25:00\nride,20240603:b201,\"S,1\",2024-06-03T08:40:00,AIR,2024-06-03T09:06:00,900,2024-06-03T09:21:00\narrived,AIR,2024-06-03T09:21:00\n",
};

/// The least worst arrival over a cut file.
pub const SAFE: Scene = Scene {
    words: "safe --cut c --delays d --from A --to T --at 2024-06-03T08:00:00",
    sources: &[CUT, DELAYS],
    text: "safe,A,T,2024-06-03T08:00:00,2024-06-03T09:21:00,2024-06-03T10:42:00\n",
};

/// A certificate over the same cut file.
pub const CHECK: Scene = Scene {
    words: "check --cut c --delays d --from A --to T --at 2024-06-03T08:00:00 --proof p",
    sources: &[CUT, DELAYS, CERTIFICATE],
    text: "holds,A,T,2024-06-03T08:00:00,2024-06-03T10:42:00,2024-06-03T08:54:42.000000000\n",
};
