// Runs a configuration file live, to try it. The file stands on standard input and the letters are the argument: prints `start` and the modules that run,
// then a line for each letter, with `+` for start, `~` for resume or `-` for stop before each module that has an order, or `refused NUMBER`. A file that is
// not accepted prints `refused NUMBER at PLACE` alone. Without an argument it does the same for many runs through one process: a frame is the file's length
// in two bytes, high first, its bytes, the number of letters in two bytes and the letters. A frame that is cut short ends it.
#![tactic(auto)]

use arrayvec::ArrayVec;
use engine::Answer;
use std::env::{Env, FillError};
use std::io;
use std::io::{Read, Write};

type Line = ArrayVec<u8, 64>;

// A space, the order's mark and the module, for each that has an order.
fn put_orders<'a, F: Fn(u8) -> &'a str>(
    line: &mut Line,
    modules: [u8; 8],
    orders: [u8; 8],
    mark: F,
) -> io::Result<()>
    requires { F.IsAlwaysCallable mark }
{
    for (module, order) in modules.into_iter().zip(orders) {
        if order != 0 {
            write!(line, " {}{}", mark(order), char::from(b'a' + module % 26))?;
        }
    }
    Ok(())
}

fn print_start<W: Write>(output: &mut W, modules: [u8; 8], orders: [u8; 8]) -> io::Result<()> {
    let mut line = Line::new();
    line.write_all(b"start")?;
    put_orders(&mut line, modules, orders, |_| "")?;
    line.write_all(b"\n")?;
    output.write_all(line.as_slice())
}

fn print_step<W: Write>(
    output: &mut W,
    letter: u8,
    modules: [u8; 8],
    answer: Answer,
) -> io::Result<()> {
    let mut line = Line::new();
    line.write_all(&[letter])?;
    if answer.number != 0 {
        write!(line, " refused {}", answer.number)?;
    } else {
        put_orders(&mut line, modules, answer.orders, |order| match order {
            1 => "+",
            2 => "~",
            _ => "-",
        })?;
    }
    line.write_all(b"\n")?;
    output.write_all(line.as_slice())
}

// The modules of an accepted file.
fn modules_of(file: &[u8]) -> [u8; 8] {
    let mut nodes = [0u8; 768];
    let mut weights = [0u8; 192];
    reader::read(file, false, &mut nodes, &mut weights)
        .modules
        .letters
}

fn run<W: Write>(output: &mut W, file: &[u8], letters: &[u8]) -> io::Result<()> {
    let mut live = [0u8; 128];
    let answer = engine::start(file, &mut live);
    if answer.number != 0 {
        let mut line = Line::new();
        writeln!(line, "refused {} at {}", answer.number, answer.place)?;
        return output.write_all(line.as_slice());
    }
    let modules = modules_of(file);
    print_start(output, modules, answer.orders)?;
    for &letter in letters {
        print_step(
            output,
            letter,
            modules,
            engine::step(file, &mut live, letter),
        )?;
    }
    Ok(())
}

// One run; false at the end of the input.
fn run_frame<R: Read, W: Write>(
    input: &mut R,
    output: &mut W,
    space: &mut [u8; 65536],
    more: &mut [u8; 65536],
) -> io::Result<bool> {
    let Some(file) = streams::block(input, space)? else {
        return Ok(false);
    };
    let Some(letters) = streams::block(input, more)? else {
        return Ok(false);
    };
    run(output, file, letters)?;
    Ok(true)
}

fn main(rt: HostRuntime) -> io::Result<()> {
    let mut input = rt.stdin();
    let mut output = rt.stdout();
    let mut space = [0u8; 65536];
    let mut letters = [0u8; 65536];
    match rt.arg(1, &mut letters) {
        Ok(count) => {
            let size = streams::read_full(&mut input, &mut space)?;
            run(&mut output, &space[..size], &letters[..count])
        }
        Err(FillError::TooLong) => eprintln!(rt; "the letters: File name too long"),
        Err(FillError::NotPresent) => streams::frames(&mut input, |input| {
            run_frame(input, &mut output, &mut space, &mut letters)
        }),
    }
}
