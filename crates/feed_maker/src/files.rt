//! The files of a made timetable.
ghost use Rattle.std.specs.Prelude.{◌≡◌, ◌<◌, ◌≤◌, length};

use crate::lines::Lines;
use crate::stop_times::StopTimes;
use crate::{STOP_TIMES, other_files};
use file_ports::{Failed, Files, Presence, SteadyFiles};
use plan_model::NoMemory;
use std::alloc::Global;

/// The files of a made timetable, of which no call fails. The text of the stop times, which is nearly all of them, is nowhere
/// as a whole: it is made line by line as it is read.
#[derive(Drop)]
pub struct MadeFiles {
    others: SteadyFiles,
    times: StopTimes,
    in_times: bool,
}

impl MadeFiles {
    ghost use Rattle.std.specs.Prelude.{None, IfOk};
    ghost use Rattle.feed_maker.specs.Files.{folder_of, open_of};
    ghost use Rattle.feed_maker.specs.MadeTables.{made, SameFolder};

    /// The files that `make` gives, none of them open. `NoMemory` comes only if there is no memory, and no read of
    /// the files takes any.
    #[tactic(auto, using(crate::proofs::Common::others_on, crate::proofs::FolderLemmas::folder_front, crate::proofs::FolderLemmas::stop_times_first))]
    pub fn new(alloc: Global, size: u32) -> Result<MadeFiles, NoMemory>
        requires low { 10 ≤ size }
        requires high { size ≤ 400 }
        ensures files { IfOk result (λ files. SameFolder (made size) (folder_of files)) }
        ensures closed { IfOk result (λ files. open_of files ≡ None) }
    {
        let lines = Lines { count: size };
        let others = other_files(alloc, lines)?;
        let times = StopTimes::new(alloc, lines)?;
        Ok(MadeFiles {
            others,
            times,
            in_times: false,
        })
    }
}

impl Files for MadeFiles {
    ghost use Rattle.std.specs.Prelude.{IsSome, IsOk};
    ghost use Rattle.file_ports.specs.Counts.{OpensPath, ReadsOpenFile};
    ghost use Rattle.feed_maker.specs.Files.{state_of};

    ghost state = { state_of };

    fn open_file(&mut self, path: &str) -> Result<Presence, Failed>
        ensures opened { OpensPath (state_of self.old) (state_of self.new) path.now result }
        ensures never_fails { IsOk result }
    {
        if path == STOP_TIMES {
            self.in_times = true;
            self.times.rewind();
            return Ok(Presence::Present);
        }
        self.in_times = false;
        self.others.open_file(path)
    }

    fn read(&mut self, buffer: &mut [u8]) -> Result<usize, Failed>
        requires in_hand { IsSome (state_of self.old).in_hand }
        requires room { 0 < length buffer.old }
        ensures reads { ReadsOpenFile (state_of self.old) (state_of self.new) buffer.new result }
        ensures never_fails { IsOk result }
    {
        if self.in_times {
            return Ok(self.times.read(buffer));
        }
        self.others.read(buffer)
    }
}
