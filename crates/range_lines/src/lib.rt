// Ranges of rows printed on standard output, a line for each.
#![tactic(auto)]

ghost use Rattle.std.specs.Prelude.{◌≤◌, length};

fn say(text: &[u8]) {
    io::write_all(1, text);
}

fn say_range(first: usize, last: usize) {
    io::print_decimal(1, first as u64);
    say(b" ");
    io::print_decimal(1, last as u64);
    say(b"\n");
}

// The first n ranges of the lists, and `end`.
pub fn say_ranges(n: usize, firsts: &[usize], lasts: &[usize])
    requires { (n ≤ length firsts.now) × (n ≤ length lasts.now) }
{
    for (first, last) in firsts[..n].iter().zip(&lasts[..n]) {
        say_range(*first, *last);
    }
    say(b"end\n");
}
