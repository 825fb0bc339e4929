// The compiler of document 01, for either edition: a file's bytes to the bytes of its table. Any bytes of any length. The file is read (`reader`), its
// states are discovered in the working slice (`discover`), and the table is written (`emit`) only where no number is left to refuse it, so that a
// refusal leaves the output as it was. The working slice is zero after every call but No. 1.
#![tactic(auto)]

ghost use Rattle.std.specs.Prelude.{◌≡◌};
ghost use Rattle.paper.specs.Parse.{parse};
ghost use Rattle.paper.specs.File.{accepted};
ghost use Rattle.paper.specs.Reaction.{Program};
ghost use Rattle.paper.specs.Refusals as editions;
ghost use Rattle.paper.specs.Calls.{cleared, compiled_program, compiled};
ghost use Rattle.reader.specs.Reads.{edition_of};
ghost use Rattle.engine.specs.Live.{Loaded, Rooted, Kinds, Reads, CameWith};
ghost use Rattle.discover.specs.Finding.{Begins};
ghost use Rattle.compiler.specs.Compiling.{outcome, Room};

use discover::discover;
use emit::emit;
use nodes::clear;
use reader::{Program as Given, Verdict, read};

// Number and place of a refusal, or number 0; how many states, and how many bytes the table has, at the front of the output.
#[derive(Clone, Copy)]
pub struct Compiled {
    pub number: usize,
    pub place: usize,
    pub states: usize,
    pub size: usize,
}

// "A refusal gives number and place, all else zero".
fn refuse(number: usize, place: usize) -> Compiled
    ensures { (result.number ≡ number) × ((result.place ≡ place) × ((result.states ≡ 0) × (result.size ≡ 0))) }
{
    Compiled {
        number: number,
        place: place,
        states: 0,
        size: 0,
    }
}

// The table of a program: No. 17, then 18, and only then the output is written.
fn build(
    nodes: &[u8],
    weights: &[u8],
    root: usize,
    modules: &[u8],
    events: &[u8],
    fugitive: &[bool; 26],
    output: &mut [u8],
    work: &mut [u8],
) -> Compiled
    requires begins { Begins nodes.now weights.now root modules.now events.now fugitive.now }
    requires room { Room output.old work.old }
    ensures { (q : Program) → Loaded q nodes.now modules.now events.now → Rooted q nodes.now root → Kinds q fugitive.now
        → outcome result output.new work.new ≡ compiled_program (accepted q) output.old (cleared work.old) }
{
    let mut entries = [0u32; 8192];
    let f = discover(
        nodes,
        weights,
        root,
        modules,
        events,
        fugitive,
        work,
        &mut entries,
    );
    clear(work);
    if f.over {
        return refuse(17, 0);
    }
    if f.large {
        return refuse(18, 0);
    }
    let count = f.count;
    let running = f.running;
    let size = emit(modules, events, fugitive, running, count, &entries, output);
    Compiled {
        number: 0,
        place: 0,
        states: count,
        size: size,
    }
}

// The table of a program that was read.
fn build_read(
    nodes: &[u8; 768],
    weights: &[u8; 192],
    p: Given,
    output: &mut [u8],
    work: &mut [u8],
) -> Compiled
    requires { CameWith p nodes.now weights.now × Room output.old work.old }
    ensures { (q : Program) → Reads q p nodes.now → outcome result output.new work.new ≡ compiled_program (accepted q) output.old (cleared work.old) }
{
    let root = p.root;
    let modules = p.modules;
    let letters = modules.letters;
    let m = modules.count;
    let events = p.events;
    let names = events.letters;
    let e = events.count;
    let fugitive = p.fugitive;
    build(
        nodes,
        weights,
        root,
        &letters[..m],
        &names[..e],
        &fugitive,
        output,
        work,
    )
}

// No. 1, what the reader refuses, or the table.
fn compile(file: &[u8], basic: bool, output: &mut [u8], work: &mut [u8]) -> Compiled
    ensures { outcome result output.new work.new ≡ compiled parse (edition_of basic) file.now output.old work.old }
{
    if output.len() < 26640 {
        return refuse(1, 0);
    }
    if work.len() < 65536 {
        return refuse(1, 0);
    }
    let mut nodes = [0u8; 768];
    let mut weights = [0u8; 192];
    let p = read(file, basic, &mut nodes, &mut weights);
    let verdict = p.verdict;
    match verdict {
        Verdict::Refused { number, place } => {
            clear(work);
            refuse(number, place)
        }
        Verdict::Accepted => build_read(&nodes, &weights, p, output, work),
    }
}

// Compile for Basic: No. 1 to 18. Ruled out (must-fail/): every file refused, one table for every file, a number of states that was not counted, a refusal
// that touches the output or leaves the working slice, No. 18 before 17, and Basic's and Adaptive's readings exchanged.
pub fn compile_basic(file: &[u8], output: &mut [u8], work: &mut [u8]) -> Compiled
    ensures { outcome result output.new work.new ≡ compiled parse editions.basic file.now output.old work.old }
{
    compile(file, true, output, work)
}

// Compile for Adaptive: No. 1 to 14, 17 and 18.
pub fn compile_adaptive(file: &[u8], output: &mut [u8], work: &mut [u8]) -> Compiled
    ensures { outcome result output.new work.new ≡ compiled parse editions.adaptive file.now output.old work.old }
{
    compile(file, false, output, work)
}
