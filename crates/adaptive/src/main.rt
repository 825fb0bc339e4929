// Compiles a configuration file for the Adaptive edition. The file stands on standard input: prints `ok STATES BYTES` and a line with the table in hex, or
// `refused NUMBER at PLACE`.
#![tactic(auto)]

use refusals::Edition;
use std::io;

fn main(rt: HostRuntime) -> io::Result<()> {
    editions::run(&mut rt.stdin(), &mut rt.stdout(), Edition::Adaptive)
}
