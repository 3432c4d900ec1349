// The files that a program's arguments name: read whole, as the listing programs read one, and made. Where that can't be done the reason
// goes to standard error.
#![tactic(auto)]

mod reason;

ghost use Rattle.std.specs.Prelude.{IfOk, ◌≤◌, length};
ghost use Rattle.io.specs.Counts.{IsPrefixLen};

pub use reason::fail;
use std::env::FillError;
use std::fs::File;
use std::io::{Error, Write};
use std::os::fd::AsRawFd;
use std::rt::Env;
use std::str;

// ---- a name

// The bytes of an argument, or why they don't come.
fn argument(rt: &HostRuntime, i: usize, name: &mut [u8]) -> Result<usize, Error>
    ensures { IfOk result (λ n. n ≤ length name.new) }
{
    match rt.arg(i, name) {
        Ok(len) => Ok(len),
        Err(FillError::TooLong) => Err(Error::from_raw_os_error(reason::NAME_TOO_LONG)),
        Err(FillError::NotPresent) => Err(Error::from_raw_os_error(reason::INVALID)),
    }
}

// A name as std takes one, or why there is no such file. std takes text alone: of other bytes no file is read or made.
fn path_of(name: &[u8]) -> Result<&str, Error> {
    if 4096 <= name.len() {
        return Err(Error::from_raw_os_error(reason::NAME_TOO_LONG));
    }
    if name.contains(&0) {
        return Err(Error::from_raw_os_error(reason::INVALID));
    }
    str::from_utf8(name).map_err(|_| Error::from_raw_os_error(reason::NO_TEXT))
}

// ---- a file read

// How many bytes of a file came into the room, or why it can't be read.
fn read_file(rt: &HostRuntime, name: &[u8], file: &mut [u8]) -> Result<usize, Error>
    ensures { IfOk result (λ n. IsPrefixLen n file.new) }
{
    let mut open = File::open(rt, path_of(name)?)?;
    let n = io::read_full(open.as_raw_fd(), file);
    // Where a read failed and the next one didn't, something had only held it up, as a signal does.
    if !whole_file::is_read(&mut open, n)? {
        return Err(Error::from_raw_os_error(reason::INTERRUPTED));
    }
    Ok(n)
}

// How many bytes of a file came into the room; none where it can't be read.
pub fn read_named(rt: &HostRuntime, name: &[u8], file: &mut [u8]) -> usize
    ensures { IsPrefixLen result file.new }
{
    match read_file(rt, name, file) {
        Ok(n) => n,
        Err(error) => {
            fail(name, error);
            0
        }
    }
}

// The same of the file that an argument names.
pub fn read_argument(rt: &HostRuntime, i: usize, file: &mut [u8]) -> usize
    ensures { IsPrefixLen result file.new }
{
    let mut name = io::buffer();
    match argument(rt, i, &mut name) {
        Ok(len) => read_named(rt, &name[..len], file),
        Err(error) => {
            fail(b"file name", error);
            0
        }
    }
}

// ---- a file made

// Makes a file of two parts, one after the other, and has the system keep both. A file that is there is emptied first, and where a write
// fails what was written before it stays.
fn make_file(rt: &HostRuntime, name: &[u8], head: &[u8], rest: &[u8]) -> Result<(), Error> {
    let mut open = File::create(rt, path_of(name)?)?;
    open.write_all(head)?;
    open.write_all(rest)?;
    keep(&open)
}

// Has the system keep what was written to a file, since some systems say only then that they couldn't, and a file that std closes says
// nothing. What keeps nothing, as a pipe, can't be asked that.
fn keep(open: &File) -> Result<(), Error> {
    match open.sync_all() {
        Err(error) if error.raw_os_error() != Some(reason::INVALID) => Err(error),
        _ => Ok(()),
    }
}

// The same of a file by its name. What comes back is whether all of both is written.
fn make_named(rt: &HostRuntime, name: &[u8], head: &[u8], rest: &[u8]) -> bool {
    match make_file(rt, name, head, rest) {
        Ok(()) => true,
        Err(error) => {
            fail(name, error);
            false
        }
    }
}

// The same of the file that an argument names.
pub fn make_argument(rt: &HostRuntime, i: usize, head: &[u8], rest: &[u8]) -> bool {
    let mut name = io::buffer();
    match argument(rt, i, &mut name) {
        Ok(len) => make_named(rt, &name[..len], head, rest),
        Err(error) => {
            fail(b"file name", error);
            false
        }
    }
}
