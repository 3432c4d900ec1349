// The program `compare`: prints which rows of two columns differ. Its arguments are the names of two files, each a descriptor and a block
// as the program `list` takes them. An argument that is missing and a file that can't be read count as no bytes, so they are refused as
// 10; the reason goes to standard error.
#![tactic(auto)]

fn main(rt: HostRuntime) {
    let mut first = whole_file::room();
    let n = named_file::read_argument(&rt, 1, &mut first);
    let mut second = whole_file::room();
    let m = named_file::read_argument(&rt, 2, &mut second);
    compare_by::print(&first[..n], &second[..m]);
}
