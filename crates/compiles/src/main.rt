// Compiles configuration files from standard input, many through one process. A frame is the file's length in two bytes, high first, and its bytes. Each
// frame gets what the programs `basic` and `adaptive` print for that file, in this order. A frame that is cut short ends the run.
#![tactic(auto)]

use refusals::Edition;
use std::io;
use std::io::{Read, Write};

// One frame; false at the end of the input.
fn compile_frame<R: Read, W: Write>(
    input: &mut R,
    output: &mut W,
    space: &mut [u8; 65536],
) -> io::Result<bool> {
    let Some(file) = streams::block(input, space)? else {
        return Ok(false);
    };
    editions::answer(output, file, Edition::Basic)?;
    editions::answer(output, file, Edition::Adaptive)?;
    Ok(true)
}

fn main(rt: HostRuntime) -> io::Result<()> {
    let mut output = rt.stdout();
    let mut space = [0u8; 65536];
    streams::frames(&mut rt.stdin(), |input| {
        compile_frame(input, &mut output, &mut space)
    })
}
