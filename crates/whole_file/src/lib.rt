// A file read whole, as the listing programs read one: into room for the longest that they take and a byte more, which tells a longer one.
#![tactic(auto)]

ghost use Rattle.std.specs.Prelude.{◌≡◌, true, ◌<◌, length, Ok};
ghost use Rattle.limits.specs.Limits.{MOST_INPUT};

use std::fs::File;
use std::io::{Error, Read};

pub fn room() -> [u8; 65537]
    ensures { MOST_INPUT < length result }
{
    [0; 65537]
}

// Whether all of a file was read, of which n bytes came, or more than is taken. An error is why it can't be read on.
pub fn is_read(file: &mut File, n: usize) -> Result<bool, Error>
    ensures { MOST_INPUT < n → result ≡ Ok true }
{
    if limits::MOST_INPUT < n {
        return Ok(true);
    }
    is_at_end(file)
}

// Whether there is nothing to read any more. `io::read_full` stops at the file's end and at a read that fails alike; where it stopped at
// the end, one read more comes to nothing.
fn is_at_end(file: &mut File) -> Result<bool, Error> {
    let mut more = [0u8; 1];
    let got = file.read(&mut more)?;
    Ok(got == 0)
}
