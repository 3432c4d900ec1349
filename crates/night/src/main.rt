// The program `night`: asks both engines for rows of many files, and prints whether they agree. Standard input has the files' names, a line
// each; an empty line is passed over. A file is a descriptor and a block as the program `list` takes them; a line `sheet NAME` names a
// sheet file as `column` takes it (a file whose own name begins so is named by its path, `./sheet NAME`). A line has at most 4,101 bytes: a
// longer one names no file.
//
// Each file has a line on standard output, and of a sheet file each column, with its number, counted from 0, behind the name: `same` and
// how many rows were compared, `refused` and the number, if both engines refuse it so or its length or its entry is refused before they are
// asked, or `differs` and the first row that does, 0 for a refusal that the other hasn't. All rows are compared if they are at most 2,000,
// else the first 1,000, the last 1,000 and those whose numbers are powers of two. A sheet file that has no directory has one line, one of
// no columns has none. The last line says how many files there were, and how many of them differ: it is there only if the list was read to
// its end.
//
// A file that can't be read counts as no bytes, and the reason goes to standard error; so does, after each hundred files, how many there
// were and how many of them differ.
#![tactic(auto)]

ghost use Rattle.std.specs.Prelude.{◌<◌, length};
ghost use Rattle.limits.specs.Limits.{MOST_INPUT};

use std::io;

// How far the list is: the files so far, and those of them that differ.
#[derive(Clone, Copy, Default)]
struct Tally {
    files: usize,
    differs: usize,
}

fn compare_named(
    rt: &HostRuntime,
    name: &[u8],
    sheet: bool,
    file: &mut [u8],
    one: &mut [u8],
    other: &mut [u8],
) -> bool
    requires { (MOST_INPUT < length one.old) × (MOST_INPUT < length other.old) }
{
    let n = named_file::read_named(rt, name, file);
    if sheet {
        return night_by::compare_sheet(name, &file[..n], one, other);
    }
    night_by::compare_file(name, &file[..n], one, other)
}

// The file that a line names.
fn compare_line(
    rt: &HostRuntime,
    line: &[u8],
    file: &mut [u8],
    one: &mut [u8],
    other: &mut [u8],
) -> bool
    requires { (MOST_INPUT < length one.old) × (MOST_INPUT < length other.old) }
{
    if night_by::is_sheet(line) {
        return compare_named(rt, &line[6..], true, file, one, other);
    }
    compare_named(rt, line, false, file, one, other)
}

// One file more. How far it is is said after each hundred.
fn counted(tally: Tally, differs: bool) -> Tally {
    let next = Tally {
        files: tally.files.wrapping_add(1),
        differs: tally.differs.wrapping_add(usize::from(differs)),
    };
    if next.files % 100 == 0 {
        night_by::say_tally(2, next.files, next.differs);
    }
    next
}

// All lines: no list has more of them than the counter. An error is why the list can't be read on.
fn compare_all(
    rt: &HostRuntime,
    file: &mut [u8],
    one: &mut [u8],
    other: &mut [u8],
) -> io::Result<Tally>
    requires { (MOST_INPUT < length one.old) × (MOST_INPUT < length other.old) }
{
    let mut tally = Tally::default();
    for _ in 0..usize::MAX {
        let mut room = night_by::room();
        let line = match night_by::read_line(rt, &mut room) {
            Ok(line) => line,
            Err(broken) => return Err(broken.error),
        };
        if 0 < line.len {
            let differs = compare_line(rt, &room[..line.len], file, one, other);
            tally = counted(tally, differs);
        }
        if !line.more {
            break;
        }
    }
    Ok(tally)
}

fn main(rt: HostRuntime) {
    let mut file = whole_file::room();
    let mut one = whole_file::room();
    let mut other = whole_file::room();
    match compare_all(&rt, &mut file, &mut one, &mut other) {
        Ok(tally) => night_by::say_tally(1, tally.files, tally.differs),
        Err(error) => named_file::fail(b"list", error),
    }
}
