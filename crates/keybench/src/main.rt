//! A bench for the libraries: reads steps from standard input, one a line, and prints what each gives.

#![tactic(auto)]

mod answering;

use answering::Keybench;
use std::io;
use std::io::BufReader;

fn main(rt: HostRuntime) -> io::Result<()> {
    let heap = rt.alloc();
    let mut input = BufReader::new(heap, rt.stdin())?;
    bench::serve(heap, &mut Keybench, &mut input, &mut rt.stdout())
}
