// The listing program of document 01: lists the block of standard input, eight descriptor bytes and the block itself.
#![tactic(auto)]

fn main() {
    let mut input = whole_file::room();
    let n = io::read_full(0, &mut input);
    printing::print(&input[..n]);
}
