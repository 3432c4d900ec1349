// Text: whether bytes are well-formed UTF-8, by a table of byte classes and a table of moves.
#![tactic(auto)]

pub mod tables;

ghost use Rattle.std.specs.Prelude.{◌≡◌, ◌<◌, ◌≤◌, ◌+◌, ◌-◌, length, take, drop};
ghost use Rattle.utf8.specs.Utf8.{is_text, after, next};
ghost use Rattle.utf8.specs.States.{class_table, due_in, move_table, is_ascii};

// ---- byte after byte

// The state after a byte, by tables that are lent: a table of the function's own would be laid out anew at each byte.
fn moved(classes: &[u8; 256], moves: &[u8; 108], state: u8, b: u8) -> u8
    requires { (classes.now ≡ class_table) × (moves.now ≡ move_table) × (state < 9) }
    ensures { (result < 9) × (due_in result ≡ next (due_in state) b) }
{
    let class = usize::from(classes[usize::from(b)]);
    moves[class + usize::from(state)]
}

// The state after a byte. The first state is 0, and in it alone a text may end.
pub fn step(state: u8, b: u8) -> u8
    requires { state < 9 }
    ensures { (result < 9) × (due_in result ≡ next (due_in state) b) }
{
    let classes = tables::CLASSES;
    let moves = tables::MOVES;
    moved(&classes, &moves, state, b)
}

// The state after the `n` bytes from `from` on.
fn walk(classes: &[u8; 256], moves: &[u8; 108], s: &[u8], from: usize, n: usize) -> u8
    requires { (classes.now ≡ class_table) × (moves.now ≡ move_table) × (from + n ≤ length s.now) }
    ensures { (result < 9) × (due_in result ≡ after (due_in 0) (take n (drop from s.now))) }
{
    let mut state: u8 = 0;
    for i in 0..n {
        state = moved(classes, moves, state, s[from + i]);
    }
    state
}

// Whether the `n` bytes from `from` on are text, byte after byte, by tables that are lent: whoever asks of many items lays them out
// once.
pub fn is_text_by(classes: &[u8; 256], moves: &[u8; 108], s: &[u8], from: usize, n: usize) -> bool
    requires { (classes.now ≡ class_table) × (moves.now ≡ move_table) × (from + n ≤ length s.now) }
    ensures { result ≡ is_text (take n (drop from s.now)) }
{
    walk(classes, moves, s, from, n) == 0
}

// ---- many bytes at once

// Whether each of the `n` bytes from `from` on is below 128. None is passed over, which lets the machine code take many at a time.
pub fn is_ascii(s: &[u8], from: usize, n: usize) -> bool
    requires { from + n ≤ length s.now }
    ensures { result ≡ is_ascii (take n (drop from s.now)) }
{
    let mut top: u8 = 0;
    for i in 0..n {
        top = top.max(s[from + i]);
    }
    top < 128
}

// Whether the `n` bytes from `from` on are text.
pub fn is_text(s: &[u8], from: usize, n: usize) -> bool
    requires { from + n ≤ length s.now }
    ensures { result ≡ is_text (take n (drop from s.now)) }
{
    if is_ascii(s, from, n) {
        return true;
    }
    let classes = tables::CLASSES;
    let moves = tables::MOVES;
    is_text_by(&classes, &moves, s, from, n)
}
