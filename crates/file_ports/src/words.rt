//! The words of the command line, from the host.
ghost use Rattle.std.specs.Prelude.{◌≡◌, ◌⊎◌, IfErr};

use std::env;
use std::env::Env;
use std::io::ErrorKind;

/// The words after the program's name, or the status with which the program is to end: 9 if there is no memory for them, and
/// 2 if a word is not UTF-8.
pub fn host_words(rt: &(impl Env + AllocGlobal)) -> Result<Vec<String>, u8>
    ensures { IfErr result (λ status. (status ≡ 2) ⊎ (status ≡ 9)) }
{
    let all = match env::args(rt) {
        Ok(all) => all,
        Err(error) => {
            return Err(if error.kind() == ErrorKind::OutOfMemory {
                9
            } else {
                2
            });
        }
    };
    all.skip(1).collect(rt.alloc()).map_err(|_error| 9)
}
