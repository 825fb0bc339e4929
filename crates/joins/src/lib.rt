// Checks on the joins of a program, by passes over its nodes, which stand as `stars` says: a name on both sides of a `||` (No. 13 and 14), and a `||`
// between interruptions (No. 16).
#![tactic(auto)]

ghost use Rattle.std.specs.Prelude.{◌≡◌, false, not, List, [], ℕ, ◌≤◌, length, take, get_or};
ghost use Rattle.paper.specs.Grammar.{Sequence};
ghost use Rattle.paper.specs.Limits.{shared_module, shared_event, braces_joined};
ghost use Rattle.letters.specs.Found.{found};
ghost use Rattle.letters.specs.Letters.{Tells};
ghost use Rattle.stars.specs.Nodes.{far, is_bars, scan, Written};
ghost use Rattle.joins.specs.Sets.{own_set, node_set, sharing_any};

use letters::{Found, is_letter};
use stars::{FAR, answer, is_join, nearer, previous};

fn is_bars(c: u8) -> bool
    ensures { result ≡ is_bars c }
{
    (c == 124) | (c == 38)
}

// The set of one letter, where it counts: the bit of its number from the base on.
fn own_set(base: u8, skip: [bool; 26], c: u8) -> u32
    requires { base ≤ 97 }
    ensures { result ≡ own_set base (λ (k : ℕ). not (get_or skip k false)) c }
{
    if is_letter(base, c) {
        let k = c - base;
        if !skip[k as usize] {
            return 1 << k;
        }
    }
    0
}

// The set of a node, where y and z are those of its parts.
fn node_set(base: u8, skip: [bool; 26], c: u8, y: u32, z: u32) -> u32
    requires { base ≤ 97 }
    ensures { result ≡ node_set base (λ (k : ℕ). not (get_or skip k false)) c y z }
{
    if is_join(c) {
        return y | z;
    }
    if c == 42 {
        return z;
    }
    own_set(base, skip, c)
}

// The least place of a `||` with a letter that counts on both sides, of the 26 from a base on without those to skip. Each node has the set of its
// letters as bits, so that one pass is enough.
fn shared(code: &[u8], left: &[u8], place: &[u16], n: usize, base: u8, skip: [bool; 26]) -> usize
    requires { (n ≤ 192) × (n ≤ length code.now) × (n ≤ length left.now) × (n ≤ length place.now) × (base ≤ 97) }
    ensures { result ≡ scan (sharing_any base (λ (k : ℕ). not (get_or skip k false))) (take n code.now) (take n left.now) (take n place.now) [] far }
{
    let mut sets = [0u32; 256];
    let mut best = FAR;
    let mut i: usize = 0;
    while i < n {
        let c = code[i];
        let l = left[i] as usize;
        let y = sets[l];
        let k = previous(i);
        let z = sets[k];
        let p = place[i] as usize;
        best = nearer(best, is_bars(c) & (y & z != 0), p);
        sets[i] = node_set(base, skip, c, y, z);
        i += 1;
    }
    best
}

// No. 13: the first `||` with a module on both sides.
pub fn shared_module(code: &[u8], left: &[u8], place: &[u16], n: usize) -> Found
    requires { (n ≤ 192) × (n ≤ length code.now) × (n ≤ length left.now) × (n ≤ length place.now) }
    ensures { (at : ℕ) (q : Sequence) → Written at q code.now left.now place.now n → found result ≡ shared_module at q }
{
    answer(shared(code, left, place, n, 97, [false; 26]))
}

// No. 14: the first `||` with a standard event on both sides.
pub fn shared_event(
    code: &[u8],
    left: &[u8],
    place: &[u16],
    n: usize,
    fugitive: [bool; 26],
) -> Found
    requires { (n ≤ 192) × (n ≤ length code.now) × (n ≤ length left.now) × (n ≤ length place.now) }
    ensures { (at : ℕ) (q : Sequence) (ls : List ℕ) → Written at q code.now left.now place.now n → Tells fugitive ls → found result ≡ shared_event ls at q }
{
    answer(shared(code, left, place, n, 65, fugitive))
}

// No. 16: the first `||` between interruptions.
pub fn braces_joined(code: &[u8], place: &[u16], n: usize) -> Found
    requires { (n ≤ length code.now) × (n ≤ length place.now) }
    ensures { (at : ℕ) (q : Sequence) (left : List ℕ) → Written at q code.now left place.now n → found result ≡ braces_joined at q }
{
    let mut best = FAR;
    let mut i: usize = 0;
    while i < n {
        let p = place[i] as usize;
        best = nearer(best, code[i] == 38, p);
        i += 1;
    }
    answer(best)
}
