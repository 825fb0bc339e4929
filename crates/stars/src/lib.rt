// Passes over the nodes of a program, as the reader wrote them, and No. 9's stars by one. `code`, `left` and `place` have the nodes in their first n
// places, each after its parts, so a node's right or only part stands just before it, and `left` says where a join's left part stands.
#![tactic(auto)]

ghost use Rattle.std.specs.Prelude.{◌≡◌, Bool, cond, ℕ, ◌+◌, ◌-◌, ◌≤◌, ◌<◌, min, max, length};
ghost use Rattle.paper.specs.Grammar.{Sequence};
ghost use Rattle.paper.specs.Limits.{too_starred};
ghost use Rattle.letters.specs.Found.{found};
ghost use Rattle.stars.specs.Nodes.{far, there, is_join, nest, Written};

use letters::Found;

// Above every place.
pub const FAR: usize = 65536;

// The answer of a pass: a place, or FAR for none.
pub fn answer(best: usize) -> Found
    ensures { found result ≡ there best }
{
    if best < FAR {
        return Found::At(best);
    }
    Found::Nothing
}

// The lesser of two places, the second only where it counts.
pub fn nearer(best: usize, counts: bool, place: usize) -> usize
    requires { best ≤ far }
    ensures { (result ≡ min best (cond counts place far)) × (result ≤ far) }
{
    if counts {
        if place < best {
            return place;
        }
    }
    best
}

// The node before node i; for node 0, which is a letter or `1`, the answer is not looked at.
pub fn previous(i: usize) -> usize
    ensures { result ≡ i - 1 }
{
    if i == 0 {
        return 0;
    }
    i - 1
}

pub fn is_join(c: u8) -> bool
    ensures { result ≡ is_join c }
{
    (c == 124) | (c == 38) | (c == 59) | (c == 47) | (c == 58) | (c == 33)
}

// How many stars nest in a node, where y and z nest in its parts.
fn nested(c: u8, y: u8, z: u8) -> u8
    requires { z < 255 }
    ensures { (result ≡ nest c y z) × (result ≤ max y z + 1) }
{
    if c == 42 {
        return z + 1;
    }
    if is_join(c) {
        if y < z {
            return z;
        }
        return y;
    }
    0
}

// No. 9: the first star over a part with three nested. The array has a place for each byte, so that any `left` is an index.
pub fn too_starred(code: &[u8], left: &[u8], place: &[u16], n: usize) -> Found
    requires { (n ≤ 192) × (n ≤ length code.now) × (n ≤ length left.now) × (n ≤ length place.now) }
    ensures { (at : ℕ) (q : Sequence) → Written at q code.now left.now place.now n → found result ≡ too_starred at q }
{
    let mut nests = [0u8; 256];
    let mut best = FAR;
    let mut i: usize = 0;
    while i < n {
        let c = code[i];
        let l = left[i] as usize;
        let y = nests[l];
        let k = previous(i);
        let z = nests[k];
        let p = place[i] as usize;
        best = nearer(best, (c == 42) & (3 <= z), p);
        nests[i] = nested(c, y, z);
        i += 1;
    }
    answer(best)
}
