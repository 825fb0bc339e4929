// The live state's 128 bytes from a state as the engine holds it: a word in 96 places, a memory, a flag for each module. And the word of the
// program's term, which a state starts with. Nothing is refused here: callers see to the table, the word and the room.
#![tactic(auto)]

ghost use Rattle.std.specs.Prelude.{◌≡◌, ◌+◌, ◌-◌, ◌*◌, ◌/◌, ◌≤◌, ◌<◌, length, drop, get_or};
ghost use Rattle.paper.specs.Term.{still};
ghost use Rattle.paper.specs.Reaction.{Program};
ghost use Rattle.laws.specs.Nodes.{tree};
ghost use Rattle.words.specs.Pieces.{Asks};
ghost use Rattle.rewrite.specs.Steps.{state, Stands};
ghost use Rattle.rewrite.specs.Stored.{stored};
ghost use Rattle.react.specs.States.{Modules, stopped_of, state_of, Flags};
ghost use Rattle.coding.specs.Layout.{low, high_of, high, pair, set_number, place_in, marks_of};
ghost use Rattle.coding.specs.Code.{code};
ghost use Rattle.pack.specs.Packing.{Wrote, Small, Known, Packs, Names};

use react::State;
use rewrite::Memory;

// The low eight bits of the units from place s on, a unit a byte.
fn put_low(w: &[usize], s: usize, b: &mut [u8])
    requires { (length w.now ≡ 96) × ((s ≤ 96) × (length b.old ≡ 128)) }
    ensures { Wrote (low (drop s w.now)) 0 (96 - s) b.old b.new }
{
    for (i, &unit) in w[s..].iter().enumerate() {
        b[i] = (unit % 256) as u8;
    }
}

// The two high bits of a unit of the word from place s on; zero behind the word.
fn high_bits(w: &[usize], s: usize, i: usize) -> usize
    requires { Small (drop s w.now) × ((s ≤ 96) × (i < 96)) }
    ensures { (result ≡ high_of (drop s w.now) i) × (result < 4) }
{
    w.get(s + i).copied().unwrap_or(0) / 256
}

// The high bits of four units, the first of them in the byte's high bits.
fn high_byte(w: &[usize], s: usize, j: usize) -> u8
    requires { Small (drop s w.now) × ((s ≤ 96) × (j < 24)) }
    ensures { result ≡ high (drop s w.now) j }
{
    let i = 4 * j;
    let one = high_bits(w, s, i);
    let two = high_bits(w, s, i + 1);
    let three = high_bits(w, s, i + 2);
    let four = high_bits(w, s, i + 3);
    (one * 64 + two * 16 + three * 4 + four) as u8
}

// The high bits of the units from place s on, four units a byte.
fn put_high(w: &[usize], s: usize, b: &mut [u8])
    requires { (length w.now ≡ 96) × (Small (drop s w.now) × ((s ≤ 96) × (length b.old ≡ 128))) }
    ensures { Wrote (high (drop s w.now)) 96 ((99 - s) / 4) b.old b.new }
{
    for j in 0..(96 - s).div_ceil(4) {
        b[96 + j] = high_byte(w, s, j);
    }
}

// The number of the stopped set: the last module's flag is its highest bit.
fn set_number(modules: &[u8], stopped: [u8; 8]) -> u8
    requires { Modules modules.now × Flags (length modules.now) stopped }
    ensures { result ≡ set_number modules.now (stopped_of modules.now stopped) }
{
    let mut number = 0;
    for i in (0..modules.len()).rev() {
        number = stopped[i] + 2 * number;
    }
    number
}

// Where an event stands among the program's events; how many they are where it does not.
fn place_of(events: &[u8], e: usize) -> usize
    ensures { result ≡ place_in events.now e }
{
    events
        .iter()
        .position(|&name| e == usize::from(name))
        .unwrap_or(events.len())
}

// The mark of the stored event at a place: where it stands among the program's events, plus one. Zero behind the last.
fn mark_at(events: &[u8], memory: Memory, i: usize) -> usize
    requires { Known events.now memory }
    ensures { (result ≡ get_or (marks_of events.now (stored memory)) i 0) × (result < 16) }
{
    if i < memory.count {
        place_of(events, memory.events[i]) + 1
    } else {
        0
    }
}

// The marks of the stored events, two a byte, the first in the high half.
fn put_marks(events: &[u8], memory: Memory, b: &mut [u8])
    requires { Known events.now memory × (length b.old ≡ 128) }
    ensures { Wrote (pair (marks_of events.now (stored memory))) 122 ((memory.count + 1) / 2) b.old b.new }
{
    for j in 0..memory.count.div_ceil(2) {
        let first = mark_at(events, memory, 2 * j);
        let second = mark_at(events, memory, 2 * j + 1);
        b[122 + j] = (first * 16 + second) as u8;
    }
}

// The 128 bytes of a state: a zeroed array, filled with its code. The table says what the word's units mean, and is not read.
// Ruled out (must-fail/): high bits of the next unit.
pub fn pack(p: &[u8], modules: &[u8], events: &[u8], w: &[usize], state: State) -> [u8; 128]
    requires { Packs p.now modules.now events.now w.now state }
    ensures { (q : Program) → Names q p.now modules.now events.now → result ≡ code q (state_of p.now w.now modules.now state) }
{
    let mut b = [0u8; 128];
    put_low(w, state.start, &mut b);
    put_high(w, state.start, &mut b);
    b[120] = (96 - state.start) as u8;
    b[121] = set_number(modules, state.stopped);
    put_marks(events, state.memory, &mut b);
    b
}

// Writes the word of the program's term, its node `root`, and answers where it starts.
pub fn start_word(p: &[u8], root: usize, w: &mut [usize]) -> usize
    requires { Asks p.now root 96 (length w.old) × (length w.old ≡ 96) }
    ensures { Stands p.now w.new result × (state p.now w.new result ≡ still (tree p.now root)) }
{
    words::expand(p, root, w, 96)
}
