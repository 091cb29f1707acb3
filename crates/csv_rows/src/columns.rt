//! The columns that are looked for in a header.
ghost use Rattle.std.specs.Prelude.{◌≡◌};
ghost use Rattle.csv_rows.specs.Columns.{name_of};

/// A column of a feed's tables (GTFS Schedule reference), of a delay file or of a cut file.
#[derive(Clone, Copy, Debug, PartialEq, Eq)]
pub enum Column {
    /// `stop_id` of `stops.txt` and `stop_times.txt`: the id of a stop.
    StopId,
    /// `location_type` of `stops.txt`: whether a row is a stop, a station or a part of one.
    LocationType,
    /// `parent_station` of `stops.txt`: the id of the station that a stop belongs to.
    ParentStation,
    /// `route_id` of `routes.txt`, `trips.txt` and a delay file: the id of a route.
    RouteId,
    /// `route_type` of `routes.txt`: the means of transport.
    RouteType,
    /// `service_id` of `trips.txt`, `calendar.txt` and `calendar_dates.txt`: the id of a service, which runs on some days.
    ServiceId,
    /// `trip_id` of `trips.txt`, `stop_times.txt` and `frequencies.txt`: the id of a trip.
    TripId,
    /// `stop_sequence` of `stop_times.txt`: the order of the rows of a trip.
    StopSequence,
    /// `arrival_time` of `stop_times.txt`: when the trip arrives.
    ArrivalTime,
    /// `departure_time` of `stop_times.txt`: when the trip departs.
    DepartureTime,
    /// `pickup_type` of `stop_times.txt`: whether one may board.
    PickupType,
    /// `drop_off_type` of `stop_times.txt`: whether one may alight.
    DropOffType,
    /// `start_time` of `frequencies.txt`: when a trip that repeats departs first.
    StartTime,
    /// `end_time` of `frequencies.txt`: before when a trip that repeats departs last.
    EndTime,
    /// `headway_secs` of `frequencies.txt`: the seconds from one departure to the next.
    HeadwaySecs,
    /// `exact_times` of `frequencies.txt`: whether the departures are exact to the second.
    ExactTimes,
    /// `monday` of `calendar.txt`: whether a service runs on Mondays.
    Monday,
    /// `tuesday` of `calendar.txt`: whether a service runs on Tuesdays.
    Tuesday,
    /// `wednesday` of `calendar.txt`: whether a service runs on Wednesdays.
    Wednesday,
    /// `thursday` of `calendar.txt`: whether a service runs on Thursdays.
    Thursday,
    /// `friday` of `calendar.txt`: whether a service runs on Fridays.
    Friday,
    /// `saturday` of `calendar.txt`: whether a service runs on Saturdays.
    Saturday,
    /// `sunday` of `calendar.txt`: whether a service runs on Sundays.
    Sunday,
    /// `start_date` of `calendar.txt`: the first day of a service.
    StartDate,
    /// `end_date` of `calendar.txt`: the last day of a service, which is included.
    EndDate,
    /// `date` of `calendar_dates.txt`: a day on which a service is added or removed.
    Date,
    /// `exception_type` of `calendar_dates.txt`: whether the service is added or removed.
    ExceptionType,
    /// `from_stop_id` of `transfers.txt`: the id of the stop where a transfer begins.
    FromStopId,
    /// `to_stop_id` of `transfers.txt`: the id of the stop where a transfer ends.
    ToStopId,
    /// `transfer_type` of `transfers.txt`: whether a transfer is timed, takes time, or is not possible.
    TransferType,
    /// `min_transfer_time` of `transfers.txt`: the seconds that a transfer takes.
    MinTransferTime,
    /// `from_route_id` of `transfers.txt`: the id of the only route from which a transfer is.
    FromRouteId,
    /// `to_route_id` of `transfers.txt`: the id of the only route to which a transfer is.
    ToRouteId,
    /// `from_trip_id` of `transfers.txt`: the id of the only trip from which a transfer is.
    FromTripId,
    /// `to_trip_id` of `transfers.txt`: the id of the only trip to which a transfer is.
    ToTripId,
    /// `class` of a delay file and of a cut file: the class of delays, a route type or `*`.
    Class,
    /// `delay` of a delay file: the seconds of a delay.
    Delay,
    /// `weight` of a delay file: in how many of 10,000 cases this is the delay.
    Weight,
    /// `hour` of a delay file: the hour of the day in which a trip is to arrive.
    Hour,
    /// `run` of a cut file: the name of a run.
    Run,
    /// `step` of a cut file: the order of the rows of a run.
    Step,
    /// `from` of a cut file: the name of the place that the ride leaves.
    From,
    /// `to` of a cut file: the name of the place where the ride ends.
    To,
    /// `dep` of a cut file: the scheduled departure.
    Dep,
    /// `arr` of a cut file: the scheduled arrival.
    Arr,
    /// `board` of a cut file: whether one may board here.
    Board,
    /// `exit` of a cut file: whether one may leave here.
    Exit,
    /// `change` of a cut file: the change seconds of the place that the ride leaves.
    Change,
}

impl Column {
    /// The name that a header gives it.
    pub fn name(self) -> &'static str
        ensures { result.now ≡ name_of self }
    {
        match self {
            Column::StopId => "stop_id",
            Column::LocationType => "location_type",
            Column::ParentStation => "parent_station",
            Column::RouteId => "route_id",
            Column::RouteType => "route_type",
            Column::ServiceId => "service_id",
            Column::TripId => "trip_id",
            Column::StopSequence => "stop_sequence",
            Column::ArrivalTime => "arrival_time",
            Column::DepartureTime => "departure_time",
            Column::PickupType => "pickup_type",
            Column::DropOffType => "drop_off_type",
            Column::StartTime => "start_time",
            Column::EndTime => "end_time",
            Column::HeadwaySecs => "headway_secs",
            Column::ExactTimes => "exact_times",
            Column::Monday => "monday",
            Column::Tuesday => "tuesday",
            Column::Wednesday => "wednesday",
            Column::Thursday => "thursday",
            Column::Friday => "friday",
            Column::Saturday => "saturday",
            Column::Sunday => "sunday",
            Column::StartDate => "start_date",
            Column::EndDate => "end_date",
            Column::Date => "date",
            Column::ExceptionType => "exception_type",
            Column::FromStopId => "from_stop_id",
            Column::ToStopId => "to_stop_id",
            Column::TransferType => "transfer_type",
            Column::MinTransferTime => "min_transfer_time",
            Column::FromRouteId => "from_route_id",
            Column::ToRouteId => "to_route_id",
            Column::FromTripId => "from_trip_id",
            Column::ToTripId => "to_trip_id",
            Column::Class => "class",
            Column::Delay => "delay",
            Column::Weight => "weight",
            Column::Hour => "hour",
            Column::Run => "run",
            Column::Step => "step",
            Column::From => "from",
            Column::To => "to",
            Column::Dep => "dep",
            Column::Arr => "arr",
            Column::Board => "board",
            Column::Exit => "exit",
            Column::Change => "change",
        }
    }
}
