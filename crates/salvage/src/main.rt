// The program `salvage`: gives a dictionary column back of which some keys name no entry, and prints which rows were lost. Its arguments
// are the names of the damaged file, a descriptor and a block as the program `list` takes them, and of the file to make, which gets the
// same descriptor and the repaired block. It is made before anything is printed: where that can't be done nothing is printed. Where the
// damaged file is refused none is made, and one that is there stays as it was. A first argument that is missing and a damaged file that
// can't be read count as no bytes, so they are refused as 10. What can't be read or made is told on standard error, with the reason.
#![tactic(auto)]

use salvaging::Salvaged;

// Makes the file that is due, and answers whether it is there: after a refusal none is due.
fn make(rt: &HostRuntime, answer: Salvaged, file: &[u8], out: &[u8]) -> bool {
    if answer.number != 0 {
        return true;
    }
    let head = salvage_by::head_of(file);
    let block = salvage_by::block_made(answer, out);
    named_file::make_argument(rt, 2, head, block)
}

fn main(rt: HostRuntime) {
    let mut file = whole_file::room();
    let n = named_file::read_argument(&rt, 1, &mut file);
    let mut firsts = salvage_by::slots();
    let mut lasts = salvage_by::slots();
    let mut out = io::large_buffer();
    let answer = salvage_by::salvage(&file[..n], &mut firsts, &mut lasts, &mut out);
    if !make(&rt, answer, &file[..n], &out) {
        return;
    }
    salvage_by::print(answer, &firsts, &lasts);
}
