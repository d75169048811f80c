#![tactic(auto)]
// Prints the number of each file of a batch, a line each.
use rules::Breach;
use std::io;
use std::io::Write;

fn main(rt: HostRuntime) -> io::Result<()> {
    let mut input = rt.stdin();
    let mut out = rt.stdout();
    batch::for_each_case(&mut input, |_, case| {
        let number = Breach::number_in(&format::check(case.file));
        writeln!(out, "{number}")
    })
}
