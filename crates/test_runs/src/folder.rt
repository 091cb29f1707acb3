//! The folder of Old Town: a tram from the mill to the square, and two buses from there to the airport.
use crate::Source;
use crate::scenes::{CALENDAR, PLAN_TEXT, PLAN_WORDS, ROUTES, STOP_TIMES, STOPS, SceneFile, TRIPS};

/// The words of a plan over the folder, from the mill to the airport.
pub const FOLDER_PLAN_WORDS: &str = PLAN_WORDS;

/// What that plan prints.
pub const FOLDER_PLAN: &str = PLAN_TEXT;

/// The path and the text of a file of a scene.
pub fn source_of(file: SceneFile) -> Source<'static> {
    (file.path, file.text)
}

/// The files of the folder, and a file of delays.
pub fn old_town<'a>(delays: &'a str) -> [Source<'a>; 6] {
    [
        source_of(STOPS),
        source_of(ROUTES),
        source_of(TRIPS),
        source_of(STOP_TIMES),
        source_of(CALENDAR),
        ("d", delays),
    ]
}
