// What the program `night` is made of, apart from its calls on files: a file's rows asked of both engines, and a line printed that says
// whether they agree. A file is a descriptor and a block, or a sheet file, whose columns are compared one by one.
#![tactic(auto)]

mod lines;

ghost use Rattle.std.specs.Prelude.{◌≡◌, false, ◌+◌, ◌≤◌, ◌<◌, length, take, drop};
ghost use Rattle.limits.specs.Limits.{MOST_INPUT};
ghost use Rattle.descriptor.specs.Descriptor.{descriptor_of};
ghost use Rattle.sheet.specs.Sheet.{columns_in};
ghost use Rattle.night_by.specs.Night.{file_verdict, Directory, column_verdict, differing};

use descriptor::Descriptor;
use limits::refusal;
pub use lines::{Broken, Line, is_sheet, read_line, room};
use night_rows::Verdict;

// ---- a file

// A file of a descriptor and a block. It is refused first by its length, as the listing program refuses it.
pub fn file_verdict(file: &[u8], one: &mut [u8], other: &mut [u8]) -> Verdict
    requires { (MOST_INPUT < length one.old) × (MOST_INPUT < length other.old) }
    ensures { result ≡ file_verdict file.now }
{
    if file.len() < 8 {
        return Verdict::Refused(refusal::CUT);
    }
    if limits::MOST_INPUT < file.len() {
        return Verdict::Refused(refusal::LIMIT);
    }
    let d = descriptor_at(file, 0);
    let block = text::block_of(file);
    let opening = descriptor::open_by_number(d, block);
    night_rows::compare_lent(opening.number, opening.reader, d, block, one, other)
}

// Column j of a sheet file that has one. Where its entry names bytes outside the file's blocks neither engine is asked.
pub fn column_verdict(file: &[u8], j: usize, one: &mut [u8], other: &mut [u8]) -> Verdict
    requires { Directory file.now × (j < columns_in file.now) × (MOST_INPUT < length one.old) × (MOST_INPUT < length other.old) }
    ensures { result ≡ column_verdict file.now j }
{
    let found = sheet::open(file, j);
    if found.number == refusal::OUTSIDE {
        return Verdict::Refused(found.number);
    }
    let d = descriptor_at(file, 1 + 16 * j);
    let block = sheet::part(file, j);
    night_rows::compare_lent(found.number, found.reader, d, block, one, other)
}

// What a sheet file is refused as before any column is asked for; 0 for one that has a directory.
fn sheet_number(file: &[u8]) -> u8
    ensures { result ≡ 0 → Directory file.now }
{
    if limits::MOST_INPUT < file.len() {
        return refusal::LIMIT;
    }
    let found = sheet::open(file, 0xffff_ffff_ffff_ffff);
    if found.number == refusal::NO_COLUMN {
        return 0;
    }
    found.number
}

// The descriptor at a place.
fn descriptor_at(file: &[u8], at: usize) -> Descriptor
    requires { at + 8 ≤ length file.now }
    ensures { result ≡ descriptor_of (take 8 (drop at file.now)) }
{
    descriptor::unpack(plain::item(file, at, 8))
}

// ---- printing

fn say(text: &[u8]) {
    io::write_all(1, text);
}

// A word with a space on either side, a number and the line's end.
fn say_word(word: &[u8], n: u64) {
    say(word);
    io::print_decimal(1, n);
    say(b"\n");
}

// What is due behind a name. What comes back is whether it differs.
fn say_verdict(verdict: Verdict) -> bool
    ensures { result ≡ differing verdict }
{
    match verdict {
        Verdict::Same(n) => {
            say_word(b" same ", n as u64);
            false
        }
        Verdict::Refused(number) => {
            say_word(b" refused ", number as u64);
            false
        }
        Verdict::Differs(r) => {
            say_word(b" differs ", r as u64);
            true
        }
    }
}

// Compares a file of a descriptor and a block, and prints its line. What comes back is whether it differs: both engines are proved, so
// none does, unless a compiler or a machine is at fault.
pub fn compare_file(name: &[u8], file: &[u8], one: &mut [u8], other: &mut [u8]) -> bool
    requires { (MOST_INPUT < length one.old) × (MOST_INPUT < length other.old) }
    ensures { result ≡ false }
{
    let verdict = file_verdict(file, one, other);
    say(name);
    say_verdict(verdict)
}

fn compare_column(name: &[u8], file: &[u8], j: usize, one: &mut [u8], other: &mut [u8]) -> bool
    requires { Directory file.now × (j < columns_in file.now) × (MOST_INPUT < length one.old) × (MOST_INPUT < length other.old) }
    ensures { result ≡ false }
{
    let verdict = column_verdict(file, j, one, other);
    say(name);
    say(b" ");
    io::print_decimal(1, j as u64);
    say_verdict(verdict)
}

fn compare_columns(name: &[u8], file: &[u8], n: usize, one: &mut [u8], other: &mut [u8]) -> bool
    requires { Directory file.now × (n ≤ columns_in file.now) × (MOST_INPUT < length one.old) × (MOST_INPUT < length other.old) }
    ensures { result ≡ false }
{
    let mut differs = false;
    for j in 0..n {
        differs |= compare_column(name, file, j, one, other);
    }
    differs
}

// Compares the columns of a sheet file, and prints a line for each, or one for a file that is refused whole. What comes back is whether a
// column differs, as of a file.
pub fn compare_sheet(name: &[u8], file: &[u8], one: &mut [u8], other: &mut [u8]) -> bool
    requires { (MOST_INPUT < length one.old) × (MOST_INPUT < length other.old) }
    ensures { result ≡ false }
{
    let number = sheet_number(file);
    if number != 0 {
        say(name);
        return say_verdict(Verdict::Refused(number));
    }
    compare_columns(name, file, file[0] as usize, one, other)
}

// So many files, and so many of them that differ: on standard output at the end, on standard error on the way.
pub fn say_tally(fd: i32, files: usize, differs: usize) {
    io::write_all(fd, b"files ");
    io::print_decimal(fd, files as u64);
    io::write_all(fd, b" differs ");
    io::print_decimal(fd, differs as u64);
    io::write_all(fd, b"\n");
}
