// Makes the calls of a script on standard input, and writes what each answered, in words and as it stands: the worked cases of
// document 01 that are no theorems. The numbered examples are theorems of `protocol`.
#![tactic(auto)]

mod panels;
mod script;
mod shown;
mod words;

use script::Cases;
use std::io;

fn main(rt: HostRuntime) -> io::Result<()> {
    let mut script = [0u8; 65536];
    let n = lent::read_full(&mut rt.stdin(), &mut script)?;
    let mut cases = Cases::new(panels::register());
    cases.run(&mut rt.stdout(), &script[..n])
}
