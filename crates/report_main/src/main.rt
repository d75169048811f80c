#![tactic(auto)]
// Reads a settlement file from standard input and prints its report; of a refused file the line that says its number. It lends 65,536 bytes of
// report space.
ghost use Rattle.std.specs.Prelude.{◌≤◌, length};

use std::io;
use std::io::Write;

fn print_report<W: Write>(out: &mut W, file: &[u8], space: &mut [u8]) -> io::Result<()>
    requires { 32 ≤ length space.old }
{
    let end = match unit::settlement_report(file, space) {
        Ok(length) => length,
        Err(breach) => report::write_refusal(space, breach.number()),
    };
    out.write_all(&space[..end])
}

fn main(rt: HostRuntime) -> io::Result<()> {
    let mut file = batch::room();
    let mut space = [0u8; 65536];
    let mut input = rt.stdin();
    let size = batch::read_full(&mut input, &mut file)?;
    let mut out = rt.stdout();
    print_report(&mut out, &file[..size], &mut space)
}
