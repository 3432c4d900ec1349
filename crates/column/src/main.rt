// The program `column`: lists one column of a sheet file, as the program `list` lists a block. Its arguments are the file's name and the
// column's number, counted from 0. A file that can't be read is refused as 21, one above 65,536 bytes as 3, an argument that names no
// column as 20; the rest are the sheet's own numbers.
#![tactic(auto)]

ghost use Rattle.std.specs.Prelude.{◌≤◌, length};

use limits::refusal;
use std::fs::File;
use std::os::fd::AsRawFd;
use std::rt::Env;
use std::str;

// How many bytes an argument has, which come into the room: of one that is missing, or of more than 4,096 bytes, none.
fn argument(rt: &HostRuntime, i: usize, text: &mut [u8]) -> usize
    ensures { result ≤ length text.new }
{
    rt.arg(i, text).unwrap_or(0)
}

// The file of a name, opened. std takes text alone: of other bytes no file is opened.
fn opened(rt: &HostRuntime, name: &[u8]) -> Option<File> {
    let path = str::from_utf8(name).ok()?;
    File::open(rt, path).ok()
}

// Lists the column of an open file that the second argument names. No bytes name no column.
fn list(rt: &HostRuntime, mut open: File) {
    let mut file = whole_file::room();
    let n = io::read_full(open.as_raw_fd(), &mut file);
    let Ok(true) = whole_file::is_read(&mut open, n) else {
        column_by::refuse(refusal::SHEET);
        return;
    };
    let mut text = io::buffer();
    let len = argument(rt, 2, &mut text);
    column_by::print(&file[..n], &text[..len]);
}

// A missing argument comes as an empty name, which no file has.
fn main(rt: HostRuntime) {
    let mut name = io::buffer();
    let len = argument(&rt, 1, &mut name);
    let Some(open) = opened(&rt, &name[..len]) else {
        column_by::refuse(refusal::SHEET);
        return;
    };
    list(&rt, open);
}
