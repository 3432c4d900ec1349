// Runs the commands of standard input, and writes what building and reading give: sizes, blocks and rows. The answers (the file
// stdout) are those of the original, stored by host/oracle (MADE.md tells how), so that they can be held against with no Rust at hand.
//
// A command is a byte and its numbers, as `script` takes them.
// 0 creates a builder with key target 0, which is the original's: kind, encoding, width, target.
// 1 appends rows that are equal: how many; presence; the integer; the number of bytes; those bytes. Before each it asks whether to
//   finish, and for the estimated size.
// 2 asks both once more, for a null, and finishes.
// 3 opens the block: kind, encoding, width, rows; then the rows that remain.
// 4 reads: the rows to pass over; the rows to give at most; then the rows that remain.
// 5 gives a block: its length and its bytes.
// 6 cuts a list into blocks: kind, encoding, width, target; how many rows; the rows, equal ones once as 1 has them. Before each it asks
//   whether to finish, and where it is to, the block is shown with the number of its rows, and a builder as 0 has it starts the next. The
//   last block is shown too, if it has a row.
//
// What is refused says so, and nothing of it is in the answers: the original has no refusals.
#![tactic(auto)]

ghost use Rattle.std.specs.Prelude.{◌≡◌, length};

use cells::Areas;

// Room for the commands.
fn commands() -> [u8; 200000]
    ensures { 200000 ≡ length result }
{
    [0; 200000]
}

fn main() {
    let mut input = commands();
    let mut areas = Areas {
        items: &mut [0u8; 4096],
        ends: &mut [0u32; 512],
        flags: &mut [0u8; 64],
        counts: &mut [0u32; 512],
        keys: &mut [0i32; 512],
        lens: &mut [0u8; 512],
    };
    let mut room = [0u8; 8192];
    let n = io::read_full(0, &mut input);
    replay_run::run_all(&input[..n], &mut areas, &mut room);
}
