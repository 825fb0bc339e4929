// From the live state's 128 bytes to a state: a word of units, a memory and a flag for each module; or No. 23. Each byte is looked at, and what is
// taken is exactly what the coding decodes. Nothing else is refused here: callers see to the table, the letters and the lengths.
#![tactic(auto)]

ghost use Rattle.std.specs.Prelude.{◌≡◌, ℕ, ◌-◌, ◌/◌, ◌^◌, ◌≤◌, ◌<◌, length, drop, take, get_or, MatchOption, IsTrue, All, ◌↔◌};
ghost use Rattle.paper.specs.Reaction.{Program};
ghost use Rattle.coding.specs.Layout.{unit_in, word_in, mark_in};
ghost use Rattle.walk.specs.Judging.{Tells};
ghost use Rattle.unpack.specs.Unpacking.{Given, Of, Shaped, Unmarked, Recalls, fresh, Bitted, Decodes};

use react::State;
use rewrite::Memory;

// The i-th unit: a byte, and two bits behind the units, of four units in a byte, the first of them highest.
fn unit(live: &[u8], i: usize) -> usize
    requires { (length live.now ≡ 128) × (i < 96) }
    ensures { result ≡ unit_in live.now i }
{
    let high = live[96 + i / 4] >> (6 - 2 * (i % 4)) & 3;
    usize::from(live[i]) + usize::from(high) * 256
}

// The marks of the memory: half a byte each, the high one first.
fn marks(live: &[u8]) -> [usize; 8]
    requires { length live.now ≡ 128 }
    ensures { (i : ℕ) → i < 8 → get_or result i 0 ≡ mark_in live.now i }
{
    let mut marks = [0; 8];
    for (i, &pair) in live[122..126].iter().enumerate() {
        marks[2 * i] = usize::from(pair >> 4);
        marks[2 * i + 1] = usize::from(pair & 15);
    }
    marks
}

// Whether there are zeros from unit n on.
#[tactic(auto, unfolding(walk::specs::Judging::Tells))]
fn clear(live: &[u8], n: usize) -> bool
    requires { (length live.now ≡ 128) × (n ≤ 96) }
    ensures { Tells result ((i : ℕ) → n ≤ i → i < 96 → unit_in live.now i ≡ 0) }
{
    for i in n..96 {
        if unit(live, i) != 0 {
            return false;
        }
    }
    true
}

// Whether the length is one of a word, nothing stands behind the word or in the last two bytes, and nothing is stopped or stored at the end.
#[tactic(auto, unfolding(walk::specs::Judging::Tells))]
fn shaped(live: &[u8]) -> bool
    requires { length live.now ≡ 128 }
    ensures { Tells result (Shaped live.now) }
{
    let n = usize::from(live[120]);
    n <= 96
        && live[126] == 0
        && live[127] == 0
        && (n != 0 || live[121] == 0 && live[122] == 0)
        && clear(live, n)
}

// The n low bits of the stopped set's number, as flags; none where it has more.
fn set_bits(n: usize, set: usize) -> Option<[u8; 8]>
    requires { n ≤ 8 }
    ensures { MatchOption result (set / 2 ^ n ≡ 0 → ⊥) (Bitted n set) }
{
    if set >> n != 0 {
        return None;
    }
    let mut flags = [0; 8];
    for i in 0..n {
        flags[i] = (set >> i & 1) as u8;
    }
    Some(flags)
}

// How many marks stand before the first zero.
fn count_marks(marks: &[usize; 8]) -> usize
    ensures few { result ≤ 8 }
    ensures marks { (i : ℕ) → i < result → get_or marks.now i 0 ≡ 0 → ⊥ }
    ensures stop { result < 8 → get_or marks.now result 0 ≡ 0 }
{
    marks.iter().position(|&m| m == 0).unwrap_or(8)
}

// Whether the first c marks are at most n, and the others zero.
fn limited(marks: &[usize; 8], c: usize, n: usize) -> bool
    requires { c ≤ 8 }
    ensures { IsTrue result ↔ (All (λ m. m ≤ n) (take c marks.now) × All (λ m. m ≡ 0) (drop c marks.now)) }
{
    marks[..c].iter().all(|&m| m <= n) && marks[c..].iter().all(|&m| m == 0)
}

// The events of the marks up to the first zero; none where one of them is of no event, or a mark stands behind the zero.
fn read_memory(live: &[u8], events: &[u8]) -> Option<Memory>
    requires { length live.now ≡ 128 }
    ensures { MatchOption result (Unmarked live.now (length events.now)) (Recalls live.now events.now) }
{
    let marks = marks(live);
    let count = count_marks(&marks);
    if !limited(&marks, count, events.len()) {
        return None;
    }
    let mut list = [0; 8];
    for (i, &m) in marks[..count].iter().enumerate() {
        list[i] = usize::from(events[m - 1]);
    }
    Some(Memory {
        events: list,
        count,
    })
}

// Whether no event is stored twice, and none is fugitive. Ruled out (must-fail/): an event twice.
fn is_fresh(stored: &[usize], fugitive: &[bool; 26]) -> bool
    requires { (i : ℕ) → i < length stored.now → get_or stored.now i 0 < 26 }
    ensures { result ≡ fresh fugitive.now stored.now }
{
    for (i, &e) in stored.iter().enumerate() {
        if fugitive[e] || stored[i + 1..].contains(&e) {
            return false;
        }
    }
    true
}

// Writes the units of a word that is as long as w.
fn fill(live: &[u8], w: &mut [usize])
    requires { (length live.now ≡ 128) × ((length w.old ≡ get_or live.now 120 0) × (length w.old ≤ 96)) }
    ensures { w.new ≡ word_in live.now }
{
    for (i, place) in w.iter_mut().enumerate() {
        *place = unit(live, i);
    }
}

// The state that the bytes code, with its word at the end of w; tmp is written in. None where they are the code of no state of the program: No. 23.
pub fn unpack(
    p: &[u8],
    weights: &[u8],
    modules: &[u8],
    events: &[u8],
    fugitive: &[bool; 26],
    live: &[u8],
    w: &mut [usize],
    tmp: &mut [usize],
) -> Option<State>
    requires { Given p.now weights.now modules.now events.now × ((length live.now ≡ 128) × ((length w.old ≡ 96) × (length tmp.old ≡ 96))) }
    ensures { (q : Program) → Of q p.now modules.now events.now fugitive.now → Decodes q p.now w.new modules.now live.now result }
{
    if !shaped(live) {
        return None;
    }
    let stopped = set_bits(modules.len(), usize::from(live[121]))?;
    let memory = read_memory(live, events)?;
    if !is_fresh(&memory.events[..memory.count], fugitive) {
        return None;
    }
    let start = 96 - usize::from(live[120]);
    fill(live, &mut w[start..]);
    if !walk::walk(p, weights, modules, w, start, tmp) {
        return None;
    }
    Some(State {
        start,
        memory,
        stopped,
    })
}
