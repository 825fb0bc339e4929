// Reads configuration files from standard input, many through one process. A frame is the file's length in two bytes, high first, and its bytes. Each
// frame gets two lines, for Basic and for Adaptive: `refused NUMBER at PLACE`, or `read`, the modules, the events, the fugitive ones (`-` for none), and
// the program's nodes in postorder. A frame that is cut short ends the run.
#![tactic(auto)]

ghost use Rattle.std.specs.Prelude.{◌<◌};

use arrayvec::ArrayVec;
use letters::Names;
use program::Node;
use reader::{Program, Verdict};
use refusals::Edition;
use std::io;
use std::io::{Read, Write};

type Line = ArrayVec<u8, 512>;

// One byte more, as long as there is room: what is read of a program takes half a line at most.
fn push_byte(line: &mut Line, byte: u8) {
    if !line.is_full() {
        line.push(byte);
    }
}

// A space and the names, from the letter `base` on; `-` where there is none.
fn put_names(line: &mut Line, names: Names, base: u8)
    requires { base < 128 }
{
    push_byte(line, b' ');
    if names.count == 0 {
        push_byte(line, b'-');
    }
    for letter in names.letters.into_iter().take(names.count) {
        push_byte(line, base + letter % 26);
    }
}

// The same of the letters whose flag is set.
fn put_flags(line: &mut Line, flags: [bool; 26]) {
    push_byte(line, b' ');
    if !flags.contains(&true) {
        push_byte(line, b'-');
    }
    for (letter, flag) in (b'A'..=b'Z').zip(flags) {
        if flag {
            push_byte(line, letter);
        }
    }
}

// A node's own letter or mark.
fn mark_of(node: Node) -> u8 {
    match node {
        Node::Module(letter) => b'a' + letter % 26,
        Node::One => b'1',
        Node::Sequence(..) => b';',
        Node::Par(..) => b'|',
        Node::Star(_) => b'*',
        Node::Act(..) => b'/',
        Node::Event(letter) => b'A' + letter % 26,
        Node::Treat(..) => b':',
        Node::Either(..) => b'!',
        Node::Both(..) => b'&',
    }
}

// Node i in postorder, at most `depth` nodes deep.
fn put_node(line: &mut Line, nodes: &[u8; 768], i: usize, depth: usize) {
    if depth == 0 {
        return;
    }
    let node = words::node_at(nodes, i % 192);
    match node {
        Node::Module(_) | Node::One | Node::Event(_) => {}
        Node::Star(part) => put_node(line, nodes, usize::from(part), depth - 1),
        Node::Treat(event, part) => {
            push_byte(line, b'A' + event % 26);
            put_node(line, nodes, usize::from(part), depth - 1);
        }
        Node::Sequence(left, right)
        | Node::Par(left, right)
        | Node::Act(left, right)
        | Node::Either(left, right)
        | Node::Both(left, right) => {
            put_node(line, nodes, usize::from(left), depth - 1);
            put_node(line, nodes, usize::from(right), depth - 1);
        }
    }
    push_byte(line, mark_of(node));
}

fn put_program(line: &mut Line, program: Program, nodes: &[u8; 768]) -> io::Result<()> {
    line.write_all(b"read")?;
    put_names(line, program.modules, b'a');
    put_names(line, program.events, b'A');
    put_flags(line, program.fugitive);
    push_byte(line, b' ');
    put_node(line, nodes, program.root, 192);
    line.write_all(b"\n")
}

fn print_reading<W: Write>(output: &mut W, file: &[u8], edition: Edition) -> io::Result<()> {
    let mut line = Line::new();
    let mut nodes = [0u8; 768];
    let mut weights = [0u8; 192];
    let program = reader::read(file, edition == Edition::Basic, &mut nodes, &mut weights);
    match program.verdict {
        Verdict::Refused { number, place } => writeln!(line, "refused {number} at {place}")?,
        Verdict::Accepted => put_program(&mut line, program, &nodes)?,
    }
    output.write_all(line.as_slice())
}

// One frame; false at the end of the input.
fn read_frame<R: Read, W: Write>(
    input: &mut R,
    output: &mut W,
    space: &mut [u8; 65536],
) -> io::Result<bool> {
    let Some(file) = streams::block(input, space)? else {
        return Ok(false);
    };
    print_reading(output, file, Edition::Basic)?;
    print_reading(output, file, Edition::Adaptive)?;
    Ok(true)
}

fn main(rt: HostRuntime) -> io::Result<()> {
    let mut output = rt.stdout();
    let mut space = [0u8; 65536];
    streams::frames(&mut rt.stdin(), |input| {
        read_frame(input, &mut output, &mut space)
    })
}
