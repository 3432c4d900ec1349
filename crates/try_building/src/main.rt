// Runs the commands of standard input on a builder and six areas, and writes all that comes back, in hex: numbers, sizes, the whole
// record, and the cells. tools/building.py makes the commands, and by a model of its own the answers (the file stdout).
//
// A command is a byte and its numbers. A number below 255 is one byte; any other is the byte 255 and eight bytes, lowest first.
// 0 creates a builder: kind, encoding, width, target, which is the key target too.
// 1 appends a row: presence, the integer, the number of bytes; those bytes.
// 2 appends rows until one is refused: how many; presence; the first integer, the step to the next, after how many the first comes
//   again (0: never); where a row's bytes come from; their number; if they come from here, those bytes.
// 3 finishes: the length of the lent room.
// 4 asks for the estimated size.
// 5 asks whether to finish: presence, length of the next row.
// 6 sets a field of the record: which one, counted from 0; the number.
// 7 sets cells: the area, the first place, how many, the first number, the step to the next.
// 8 lends an area at another length from here on: the area; the length.
// 9 says after which appends the cells are shown: 0 none, 1 a refused one, 2 all. A finish shows the room unless it is 0.
// 10 shows the cells.
// 11 shows of every area, to its end, the sum of its cells and the sum of such sums from the start to each cell.
// 12 creates a builder with a key target: kind, encoding, width, target, key target.
// 13 appends a row so many times, by one call: how many; presence, the integer, the number of bytes; those bytes.
//
// The areas are 0 items, 1 ends, 2 flags, 3 counts, 4 keys, 5 lengths, 6 the room. Shown are the lent cells and two past them.
// Presence is 0 for a null, 1 for a row that is there; in 2 also 2: a null where the first integer comes again.
// Bytes come (2) from here, 0; from the start of the room, 1; or are the first of the integer's, lowest first, 2.
#![tactic(auto)]

mod lending;

use cells::Areas;

fn main() {
    let mut input = lending::commands();
    let mut items = lending::items();
    let mut ends = lending::ends();
    let mut flags = lending::flags();
    let mut counts = lending::counts();
    let mut keys = lending::keys();
    let mut lens = lending::lens();
    let mut room = lending::room();
    let mut areas = Areas {
        items: &mut items,
        ends: &mut ends,
        flags: &mut flags,
        counts: &mut counts,
        keys: &mut keys,
        lens: &mut lens,
    };
    let n = io::read_full(0, &mut input);
    run_by::run_all(&input[..n], &mut areas, &mut room);
}
