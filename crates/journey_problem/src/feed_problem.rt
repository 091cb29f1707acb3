//! A journey over a feed.
ghost use Rattle.std.specs.Prelude.{◌≡◌, ◌≢◌, ◌<◌, ◌≤◌, ℕ, List as Bytes, length, None, Some, IfSome, IfOk, IfErr, OnOk, ⊤};
ghost use Rattle.table_files.specs.Reading.{Reads};
ghost use Rattle.change_times.specs.Transfers.{place_of_stop};
ghost use Rattle.change_times.specs.Changes.{LinksComeFrom, AreReportedBySome};
ghost use Rattle.connections.specs.Cut.{IsNetworkFrom};
ghost use Rattle.service_days.specs.Services.{runs};
ghost use Rattle.service_days.specs.Calendars.{RunsBySome};
ghost use Rattle.command_line.specs.Shown.{journey_shown};
ghost use Rattle.command_line.specs.Jobs.{SourceModel, FeedFolder, source_or_target};
ghost use Rattle.journey_model.specs.Faults.{MayBeUnread, unread_input};
ghost use Rattle.journey_problem.specs.Files.{OwnPaths, path_by, HasCauses};
ghost use Rattle.journey_problem.specs.FaultsBeforeSearch.{IsBeforeSearch};
ghost use Rattle.journey_problem.specs.FeedProblems.{feed_as, feed_stop_fault, window_fault_of, AreRules, IsFolder, IsSoundFolder, IsFolderFault, IsLaterTableFault, IsFaultAfterFolder, IsWindowFault, IsFeedProblem, IsFeedProblemFault, HasFeedTimetable, gtfs_folder_of};

use crate::feed_tables::{FeedRules, FeedTables};
use crate::inputs::read_delay_file;
use crate::stops::first_which;
use change_times::Changes;
use command_line::Journey;
use connections::{WindowFault, cut};
use csv_rows::{FeedFault, Limits};
use delay_table::DelayTable;
use file_ports::Files;
use gtfs_tables::Feed;
use journey_model::{Ends, Fault, Input, LimitKind, Problem, Which};
use plan_model::{Hours, Timetable};
use service_days::Services;
use std::alloc::Global;

/// The tables of a folder that come after those of its feed.
fn read_rules<F: Files>(
    alloc: Global,
    files: &mut F,
    folder: &str,
    feed: &Feed,
    limits: &Limits,
) -> Result<FeedRules, FeedFault>
    ensures reads { Reads folder.now (F.state files.old) (F.state files.new)
        (λ m r. AreRules limits.now m folder.now feed.now r.services r.changes)
        (λ m. IsLaterTableFault limits.now m folder.now feed.now) (λ f. ⊤) result }
    ensures services { IfOk result (λ r. RunsBySome (runs r.services)) }
    ensures changes { IfOk result (λ r. AreReportedBySome feed.now r.changes) }
    ensures links { IfOk result (λ r. LinksComeFrom (length feed.now.stop_ids) r.changes) }
{
    let services = match Services::read(alloc, files, folder, limits) {
        Err(fault) => return Err(fault),
        Ok(services) => services,
    };
    match Changes::read(alloc, files, folder, feed, limits) {
        Err(fault) => Err(fault),
        Ok(changes) => Ok(FeedRules { services, changes }),
    }
}

/// The tables of a folder.
fn read_folder<F: Files>(
    alloc: Global,
    files: &mut F,
    folder: &str,
    limits: &Limits,
) -> Result<FeedTables, FeedFault>
    ensures reads { Reads folder.now (F.state files.old) (F.state files.new)
        (λ m t. IsFolder limits.now m folder.now (gtfs_folder_of t))
        (λ m. IsFolderFault limits.now m folder.now) (λ f. ⊤) result }
    ensures sound { IfOk result (λ t. IsSoundFolder (gtfs_folder_of t)) }
{
    let feed = match Feed::read(alloc, files, folder, limits) {
        Err(fault) => return Err(fault),
        Ok(feed) => feed,
    };
    match read_rules(alloc, files, folder, &feed, limits) {
        Err(fault) => Err(fault),
        Ok(rules) => {
            // Each stop has its number, as in every sound feed.
            let are_numbered = feed.stop_count() < u32::MAX;
            prove!(are_numbered);
            Ok(FeedTables { feed, rules })
        }
    }
}

/// A fault of a feed as one of the run.
fn fault_of(fault: FeedFault, limits: &Limits) -> Fault
    ensures fault { result ≡ feed_as limits.now fault }
    ensures early { (folder : Bytes ℕ) (horizon : ℕ) → IsBeforeSearch (FeedFolder folder horizon) result }
{
    match fault {
        FeedFault::Read(table) => Fault::Read(Input::Feed(table)),
        FeedFault::TooLong(table) => {
            Fault::Limit(LimitKind::Bytes(Input::Feed(table)), limits.bytes + 1)
        }
        FeedFault::TooManyRows(table, count) => Fault::Limit(LimitKind::Rows(table), count),
        FeedFault::NoMemory => Fault::NoMemory,
        fault => Fault::Feed(fault),
    }
}

/// The places of the stops of a journey.
fn ends_of(feed: &Feed, journey: &Journey) -> Result<Ends, Fault>
    ensures source { IfOk result (λ ends.
        place_of_stop feed.now (source_or_target (journey_shown journey.now)) ≡ Some ends.source.0) }
    ensures target { IfOk result (λ ends.
        place_of_stop feed.now journey.now.to.now ≡ Some ends.target.0) }
    ensures source_in { IfOk result (λ ends. ends.source.0 < length feed.now.stop_ids) }
    ensures target_in { IfOk result (λ ends. ends.target.0 < length feed.now.stop_ids) }
    ensures none { OnOk result (feed_stop_fault feed.now
        (journey_shown journey.now).from journey.now.to.now ≡ None) }
    ensures fault { IfErr result (λ fault. feed_stop_fault feed.now
        (journey_shown journey.now).from journey.now.to.now ≡ Some fault) }
    ensures early { (timetable : SourceModel) → IfErr result (IsBeforeSearch timetable) }
{
    let Some(source) = feed.place_of(journey.source_or_target()) else {
        return Err(Fault::UnknownStop(first_which(journey)));
    };
    let Some(target) = feed.place_of(journey.to) else {
        return Err(Fault::UnknownStop(Which::To));
    };
    Ok(Ends { source, target })
}

/// The problem of a journey in what its files hold.
fn window_problem(
    alloc: Global,
    tables: &FeedTables,
    delays: &DelayTable,
    horizon: Hours,
    journey: &Journey,
    limits: &Limits,
) -> Result<Problem, Fault>
    ensures network { IfOk result (λ p. IsNetworkFrom tables.now.feed tables.now.rules.services
        tables.now.rules.changes delays.now journey.now.start.moment.0 horizon.value
        p.timetable.network p.timetable.names) }
    ensures no_window_fault { OnOk result (window_fault_of limits.now horizon.value
        (journey_shown journey.now) (gtfs_folder_of tables.now) ≡ None) }
    ensures source { IfOk result (λ p.
        place_of_stop tables.now.feed (source_or_target (journey_shown journey.now)) ≡ Some p.source.0) }
    ensures target { IfOk result (λ p.
        place_of_stop tables.now.feed journey.now.to.now ≡ Some p.target.0) }
    ensures fault { IfErr result (λ fault. fault ≢ Fault.NoMemory → IsWindowFault limits.now
        horizon.value (journey_shown journey.now) (gtfs_folder_of tables.now) fault) }
    ensures early { (folder : Bytes ℕ) → IfErr result (IsBeforeSearch (FeedFolder folder horizon.value)) }
    ensures read { IfErr result (λ fault. unread_input fault ≡ None) }
{
    let ends = ends_of(&tables.feed, journey)?;
    match cut(
        alloc,
        &tables.feed,
        &tables.rules.services,
        &tables.rules.changes,
        delays,
        journey.start.moment,
        horizon.value,
        limits,
    ) {
        Err(WindowFault::TooMany(count)) => Err(Fault::Limit(LimitKind::Connections, count)),
        Err(WindowFault::TooManyEntries(count)) => Err(Fault::Limit(LimitKind::Entries, count)),
        Err(WindowFault::NoMemory) => Err(Fault::NoMemory),
        Ok((network, names)) => { Ok(Problem::between(ends, Timetable::new(network, names))) }
    }
}

/// The problem of a journey in the tables of a folder.
fn problem_in<F: Files>(
    alloc: Global,
    files: &mut F,
    tables: &FeedTables,
    horizon: Hours,
    journey: &Journey,
    limits: &Limits,
) -> Result<Problem, Fault>
    requires sound { IsSoundFolder (gtfs_folder_of tables.now) }
    ensures problem { IfSome (F.state files.old).files (λ m. IfOk result (λ p. (folder : Bytes ℕ)
        → IsFolder limits.now m folder (gtfs_folder_of tables.now)
        → IsFeedProblem limits.now m folder horizon.value (journey_shown journey.now) p)) }
    ensures fault { IfSome (F.state files.old).files (λ m. IfErr result (λ fault. fault ≢ Fault.NoMemory
        → IsFaultAfterFolder limits.now m horizon.value (journey_shown journey.now)
        (gtfs_folder_of tables.now) fault)) }
    ensures early { (folder : Bytes ℕ) → IfErr result (IsBeforeSearch (FeedFolder folder horizon.value)) }
    ensures own { IfErr result (MayBeUnread Input.Delays) }
    ensures timetable { IfOk result (HasFeedTimetable horizon.value (journey_shown journey.now)) }
    ensures causes { HasCauses (λ other. Some journey.now.delays.now)
        (F.state files.old) (F.state files.new) result }
{
    match read_delay_file(alloc, files, journey.delays, limits) {
        Err(fault) => Err(fault),
        Ok(delays) => window_problem(alloc, tables, &delays, horizon, journey, limits),
    }
}

/// The problem of a journey over the feed in this folder, whose timetable is the window of `horizon`
/// hours from the start on.
pub(crate) fn feed_problem<F: Files>(
    alloc: Global,
    files: &mut F,
    folder: &str,
    horizon: Hours,
    journey: &Journey,
    limits: &Limits,
) -> Result<Problem, Fault>
    ensures problem { IfSome (F.state files.old).files (λ m. IfOk result
        (IsFeedProblem limits.now m folder.now horizon.value (journey_shown journey.now))) }
    ensures fault { IfSome (F.state files.old).files (λ m. IfErr result (λ fault. fault ≢ Fault.NoMemory
        → IsFeedProblemFault limits.now m folder.now horizon.value (journey_shown journey.now) fault)) }
    ensures early { IfErr result (IsBeforeSearch (FeedFolder folder.now horizon.value)) }
    ensures timetable { IfOk result (HasFeedTimetable horizon.value (journey_shown journey.now)) }
    ensures causes { (own : OwnPaths) → HasCauses
        (path_by (FeedFolder folder.now horizon.value) (journey_shown journey.now) own)
        (F.state files.old) (F.state files.new) result }
{
    match read_folder(alloc, files, folder, limits) {
        Err(fault) => Err(fault_of(fault, limits)),
        Ok(tables) => problem_in(alloc, files, &tables, horizon, journey, limits),
    }
}
