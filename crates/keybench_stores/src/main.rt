//! A bench for the libraries: reads steps from standard input, one a line, and prints what each gives.

#![tactic(auto)]

mod answering;

use answering::Stores;
use std::io;
use std::io::BufReader;

fn main(rt: HostRuntime) -> io::Result<()> {
    let heap = rt.alloc();
    let mut input = BufReader::new(heap, rt.stdin())?;
    let mut stores = Stores(None);
    bench::serve(heap, &mut stores, &mut input, &mut rt.stdout())
}
