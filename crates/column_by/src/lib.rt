// What the program `column` is made of, apart from its calls on files: the column that an argument names, and its listing.
#![tactic(auto)]

ghost use Rattle.std.specs.Prelude.{◌≡◌, ◌≤◌, length};
ghost use Rattle.limits.specs.Limits.{MOST_INPUT};
ghost use Rattle.sheet.specs.Sheet.{column_found};
ghost use Rattle.column_by.specs.Named.{column_named, with_digit};
ghost use Rattle.column_by.specs.Asked.{column_asked};

use limits::refusal;

// The column that an argument names, if it names one: it is decimal digits, one at least, and their number is below 2^64. `str::parse` takes
// a `+` before them too.
pub fn column_in(text: &[u8]) -> Option<usize>
    ensures { result ≡ column_named text.now }
{
    if text.is_empty() {
        return None;
    }
    let mut n = 0;
    for b in text {
        n = with_digit(n, *b)?;
    }
    Some(n)
}

// A number with one digit more behind it.
#[tactic(auto, unfolding(crate::specs::Named::with_digit))]
fn with_digit(n: usize, b: u8) -> Option<usize>
    ensures { result ≡ with_digit n b }
{
    if !b.is_ascii_digit() {
        return None;
    }
    let d = usize::from(b - b'0');
    n.checked_mul(10)?.checked_add(d)
}

// Lists on standard output the column of a sheet file that an argument names. What comes back is 0 or the number that was printed behind
// `refused`; it is a number and no `Refusal` because the sheet's answer, which C has too, is a record with a number.
pub fn print(file: &[u8], text: &[u8]) -> u8
    ensures { result ≡ column_asked file.now text.now }
{
    if limits::MOST_INPUT < file.len() {
        return refuse(refusal::LIMIT);
    }
    let Some(j) = column_in(text) else {
        return refuse(refusal::NO_COLUMN);
    };
    print_column(file, j)
}

// Column j, as the program `list` lists its descriptor and its block.
fn print_column(file: &[u8], j: usize) -> u8
    requires { length file.now ≤ MOST_INPUT }
    ensures { result ≡ (column_found file.now j).number }
{
    let found = sheet::open(file, j);
    if found.number != 0 {
        return refuse(found.number);
    }
    printing::print_rows(found.reader, sheet::part(file, j))
}

// Prints a refusal.
pub fn refuse(number: u8) -> u8
    ensures { result ≡ number }
{
    printing::say_refused(number);
    number
}
