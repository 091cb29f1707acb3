//! The forms of the fields.
ghost use Rattle.std.specs.Prelude.{◌≡◌, option_map};
ghost use Rattle.cut_file.specs.CutRows.{moment_before_end, class_in, flag_in};

use clock_text::{read_moment, read_whole};

/// The first moment that is too late: 2401-01-01.
const END: u64 = 13_601_088_000;

/// The greatest route type.
const LAST_TYPE: u32 = 65_534;

/// A moment before 2401.
pub(crate) fn read_early(text: &[u8]) -> Option<u64>
    ensures { result ≡ moment_before_end text.now }
{
    let moment = read_moment(text)?;
    if moment.0 < END { Some(moment.0) } else { None }
}

/// A route type, and none for `*`, which an empty field means.
pub(crate) fn read_class(text: &[u8]) -> Option<Option<u16>>
    ensures { result ≡ class_in text.now }
{
    if text.is_empty() || text == b"*".as_slice() {
        return Some(None);
    }
    let route = read_whole(text, LAST_TYPE)?;
    Some(Some(route as u16))
}

/// 0 or 1, and 1 if the field is empty.
pub(crate) fn read_flag(text: &[u8]) -> Option<bool>
    ensures { result ≡ flag_in text.now }
{
    if text.is_empty() || text == b"1".as_slice() {
        return Some(true);
    }
    if text == b"0".as_slice() {
        return Some(false);
    }
    None
}
