//! Where hashes begin. Who makes the names of a timetable can't make them share one hash if the keys are drawn anew at each
//! start of the program.
use std::hash::{BuildHasher, DefaultHasher, RandomState};
use std::random::RandomSource;

/// The keys of a hash map or set: those that a source drew, or none if it draws nothing. The hasher is that of std.
#[derive(Clone, Copy)]
pub enum HashKey {
    /// Keys that a source drew.
    Drawn(RandomState),
    /// Keys that are the same at each start of the program.
    Fixed,
}

impl HashKey {
    /// Keys that are the same at each start of the program.
    pub fn fixed() -> HashKey {
        HashKey::Fixed
    }

    /// Keys that a source draws, or the fixed ones if it draws nothing.
    pub fn drawn(source: &impl RandomSource) -> HashKey {
        match RandomState::new(source) {
            Ok(state) => HashKey::Drawn(state),
            Err(_) => HashKey::Fixed,
        }
    }
}

impl BuildHasher for HashKey {
    type Hasher = DefaultHasher;

    ghost use Rattle.plan_model.specs.Hashes.{first_hasher};

    ghost build_hasher = { first_hasher };

    fn build_hasher(&self) -> DefaultHasher {
        match self {
            HashKey::Drawn(state) => state.build_hasher(),
            HashKey::Fixed => DefaultHasher::new(),
        }
    }
}
