// The live engine: start and step of document 01's Adaptive, on a file's bytes and the 128 bytes of a live state. Any bytes of any length, any letter.
// The file is read anew at each call (`reader`); a state goes from bytes to a word and back (`unpack`, `pack`; docs/CODING.md has the layout), and one
// reaction changes it (`react`). A refusal leaves the live bytes as they were.
#![tactic(auto)]

ghost use Rattle.std.specs.Prelude.{◌≡◌, false, [], ℕ, ◌<◌, length, get_or};
ghost use Rattle.paper.specs.Lists.{has};
ghost use Rattle.paper.specs.Parse.{parse};
ghost use Rattle.paper.specs.File.{accepted};
ghost use Rattle.paper.specs.Reaction.{Program};
ghost use Rattle.paper.specs.Rewriting.{occurrence};
ghost use Rattle.paper.specs.Calls as calls;
ghost use Rattle.rewrite.specs.Steps as steps;
ghost use Rattle.react.specs.States.{state_of};
ghost use Rattle.coding.specs.Code.{coding};
ghost use Rattle.engine.specs.Live.{outcome, meant, Letters, Loaded, Rooted, Begins, Kinds, Turns, Stated, Runs, reacted_to, Reads, Came, CameWith};

use pack::{pack, start_word};
use react::{Reacted, State, possible, react, runs_flags};
use reader::{Program as Given, Verdict, read};
use rewrite::{Letter, Memory};
use text::kinds::{is_event, is_module};
use unpack::unpack;

// Number and place of a refusal, or number 0; and one order for each module, ascending, zeros behind: 0 none, 1 start, 2 resume, 3 stop.
#[derive(Clone, Copy)]
pub struct Answer {
    pub number: usize,
    pub place: usize,
    pub orders: [u8; 8],
}

// A letter of the program, or none.
#[derive(Clone, Copy)]
enum Known {
    Foreign,
    Own(Letter),
}

// "A refusal gives number and place, all else zero".
fn refuse(number: usize, place: usize) -> Answer
    ensures { (result.number ≡ number) × ((result.place ≡ place) × (result.orders ≡ calls.eight [])) }
{
    Answer {
        number: number,
        place: place,
        orders: [0; 8],
    }
}

// n stands among the names.
fn among(names: &[u8], n: u8) -> bool
    ensures { result ≡ has n names.now }
{
    let mut i = 0;
    while i < names.len() {
        if n == names[i] {
            return true;
        }
        i += 1;
    }
    false
}

// The program's letter of a byte: No. 21 where there is none.
fn letter_of(modules: &[u8], events: &[u8], b: u8) -> Known
    ensures { (q : Program) → Letters q modules.now events.now → meant result ≡ calls.letter_of q b }
{
    if is_module(b) {
        let m = b - 97;
        if among(modules, m) {
            return Known::Own(Letter::Completion(m as usize));
        }
        return Known::Foreign;
    }
    if is_event(b) {
        let e = b - 65;
        if among(events, e) {
            return Known::Own(Letter::Occurrence(e as usize));
        }
    }
    Known::Foreign
}

// An event is fugitive; a completion is not.
fn is_fugitive(fugitive: &[bool; 26], letter: Letter) -> bool
    ensures { (e : ℕ) → steps.letter_of letter ≡ occurrence e → e < 26 → result ≡ get_or fugitive.now e false }
{
    match letter {
        Letter::Completion(_) => false,
        Letter::Occurrence(e) => { if e < 26 { fugitive[e] } else { false } }
    }
}

// The start of a program: its word's code, and the modules that run.
pub fn begin(nodes: &[u8], root: usize, modules: &[u8], events: &[u8], live: &mut [u8]) -> Answer
    requires { Begins nodes.now root modules.now events.now × (length live.old ≡ 128) }
    ensures { (q : Program) → Loaded q nodes.now modules.now events.now → Rooted q nodes.now root
        → outcome result live.new ≡ calls.begun coding (accepted q) live.old }
{
    let mut w = [0usize; 96];
    let s = start_word(nodes, root, &mut w);
    let orders = runs_flags(nodes, modules, &w, s);
    let memory = Memory {
        events: [0; 8],
        count: 0,
    };
    let state = State {
        start: s,
        memory,
        stopped: [0; 8],
    };
    live.copy_from_slice(&pack(nodes, modules, events, &w, state));
    Answer {
        number: 0,
        place: 0,
        orders: orders,
    }
}

// One letter of the program in the state whose word stands from s on: No. 22, or the reaction, and its state's code.
pub fn go(
    nodes: &[u8],
    modules: &[u8],
    events: &[u8],
    fugitive: &[bool; 26],
    live: &mut [u8],
    w: &mut [usize],
    tmp: &mut [usize],
    state: State,
    letter: Letter,
) -> Answer
    requires runs { Runs nodes.now modules.now events.now fugitive.now w.old state (steps.letter_of letter) }
    requires live_len { (length live.old ≡ 128) × (length tmp.old ≡ 96) }
    ensures { (q : Program) → Loaded q nodes.now modules.now events.now → Kinds q fugitive.now
        → Stated q nodes.now modules.now w.old state (steps.letter_of letter)
        → outcome result live.new ≡ reacted_to q (steps.letter_of letter) (state_of nodes.now w.old modules.now state) live.old }
{
    if !possible(nodes, w, state.start, letter) {
        return refuse(22, 0);
    }
    let passing = is_fugitive(fugitive, letter);
    let Reacted { state, orders } = react(nodes, modules, w, state, tmp, letter, passing);
    live.copy_from_slice(&pack(nodes, modules, events, w, state));
    Answer {
        number: 0,
        place: 0,
        orders,
    }
}

// One letter in the state that the live bytes code: No. 23, then 21, then what the letter does.
fn turn(
    nodes: &[u8],
    weights: &[u8],
    modules: &[u8],
    events: &[u8],
    fugitive: &[bool; 26],
    live: &mut [u8],
    letter: u8,
) -> Answer
    requires { Turns nodes.now weights.now modules.now events.now fugitive.now × (length live.old ≡ 128) }
    ensures { (q : Program) → Loaded q nodes.now modules.now events.now → Kinds q fugitive.now
        → outcome result live.new ≡ calls.stepped coding (accepted q) letter live.old }
{
    let mut w = [0usize; 96];
    let mut tmp = [0usize; 96];
    let Some(state) = unpack(
        nodes, weights, modules, events, fugitive, live, &mut w, &mut tmp,
    ) else {
        return refuse(23, 0);
    };
    let known = letter_of(modules, events, letter);
    match known {
        Known::Foreign => refuse(21, 0),
        Known::Own(l) => go(
            nodes, modules, events, fugitive, live, &mut w, &mut tmp, state, l,
        ),
    }
}

// The start of a program that was read.
fn begin_read(nodes: &[u8; 768], p: Given, live: &mut [u8]) -> Answer
    requires { Came p nodes.now × (length live.old ≡ 128) }
    ensures { (q : Program) → Reads q p nodes.now → outcome result live.new ≡ calls.begun coding (accepted q) live.old }
{
    let root = p.root;
    let modules = p.modules;
    let letters = modules.letters;
    let m = modules.count;
    let events = p.events;
    let names = events.letters;
    let e = events.count;
    begin(nodes, root, &letters[..m], &names[..e], live)
}

// One letter in a state of a program that was read.
fn turn_read(
    nodes: &[u8; 768],
    weights: &[u8; 192],
    p: Given,
    live: &mut [u8],
    letter: u8,
) -> Answer
    requires { CameWith p nodes.now weights.now × (length live.old ≡ 128) }
    ensures { (q : Program) → Reads q p nodes.now → outcome result live.new ≡ calls.stepped coding (accepted q) letter live.old }
{
    let modules = p.modules;
    let letters = modules.letters;
    let m = modules.count;
    let events = p.events;
    let names = events.letters;
    let e = events.count;
    let fugitive = p.fugitive;
    turn(
        nodes,
        weights,
        &letters[..m],
        &names[..e],
        &fugitive,
        live,
        letter,
    )
}

// Live start: writes the start's code and answers the modules that run. No. 1 to 14.
pub fn start(file: &[u8], live: &mut [u8]) -> Answer
    ensures { outcome result live.new ≡ calls.live_start parse coding file.now live.old }
{
    if live.len() != 128 {
        return refuse(1, 0);
    }
    let mut nodes = [0u8; 768];
    let mut weights = [0u8; 192];
    let p = read(file, false, &mut nodes, &mut weights);
    let verdict = p.verdict;
    match verdict {
        Verdict::Refused { number, place } => refuse(number, place),
        Verdict::Accepted => begin_read(&nodes, p, live),
    }
}

// Live step: the state after a letter, and one order for each module. No. 1 to 14, 23, 21, 22.
pub fn step(file: &[u8], live: &mut [u8], letter: u8) -> Answer
    ensures { outcome result live.new ≡ calls.live_step parse coding file.now live.old letter }
{
    if live.len() != 128 {
        return refuse(1, 0);
    }
    let mut nodes = [0u8; 768];
    let mut weights = [0u8; 192];
    let p = read(file, false, &mut nodes, &mut weights);
    let verdict = p.verdict;
    match verdict {
        Verdict::Refused { number, place } => refuse(number, place),
        Verdict::Accepted => turn_read(&nodes, &weights, p, live, letter),
    }
}
