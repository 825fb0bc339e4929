// The states that discovery has found: the 128 bytes of each one after the other in the working slice, in order of discovery, and an index beside them,
// 1,536 numbers in three columns of 512: the hash of the i-th state at i; at 512 + i the link to the last state before it of the same bucket; at 1,024 + k
// the last state of bucket k. A link is the state's number plus one, 0 for none. Two states are the same where their bytes are; the index only spares
// comparisons. Nothing is refused here: where 512 states stand already a new one is not put, and has no number.
#![tactic(auto)]

ghost use Rattle.std.specs.Prelude.{◌≡◌, List, ℕ, ◌+◌, ◌*◌, ◌/◌, ◌≤◌, ◌<◌, length, unwrap_or, IfSome, MatchOption};
ghost use Rattle.slots.specs.Slots.{mix, four_at, hash_of, number_in, Holds, Enrolls, Full};

// The number of a state, and how many states there are now.
#[derive(Clone, Copy)]
pub struct Enrolled {
    pub number: usize,
    pub count: usize,
}

// One number more in a hash.
fn mixed(h: u32, x: u32) -> u32
    ensures { result ≡ mix h x }
{
    h.wrapping_add(x).wrapping_mul(1640531527)
}

// Four bytes from a place on, as one number.
fn four(b: &[u8; 128], i: usize) -> u32
    requires { i + 4 ≤ 128 }
    ensures { result ≡ four_at b.now i }
{
    u32::from_le_bytes([b[i], b[i + 1], b[i + 2], b[i + 3]])
}

// The hash of a state's bytes: of the last eight, and of the fours that have its units. Byte 120 has their number, at most 96.
fn hash(b: &[u8; 128]) -> u32
    ensures { result ≡ hash_of b.now }
{
    let fours = (usize::from(b[120]) % 128 + 3) / 4;
    let mut h = mixed(mixed(0, four(b, 120)), four(b, 124));
    for i in 0..fours {
        h = mixed(h, four(b, 4 * i));
    }
    h
}

// The bucket of a hash, one of 512: its upper nine bits.
fn bucket(h: u32) -> usize
    ensures { (result ≡ h / 8388608) × (result < 512) }
{
    (h >> 23) as usize
}

// The state that a link leads to; none where that is none of the first n, so that a search along the links ends whatever stands in the index.
fn linked(link: usize, n: usize) -> Option<usize>
    ensures { MatchOption result (link ≤ n → link ≡ 0) (λ i. (i < n) × (link ≡ i + 1)) }
{
    link.checked_sub(1).filter(|&i| i < n)
}

// The number of b, whose hash is h, among the first states. Only the states of its bucket are looked at, the last first.
fn find(work: &[u8], index: &[usize], count: usize, h: u32, b: &[u8; 128]) -> Option<usize>
    requires { (65536 ≤ length work.now) × ((1536 ≤ length index.now) × ((count ≤ 512) × (h ≡ hash_of b.now))) }
    ensures known { IfSome result (λ i. i < count) }
    ensures number { (cs : List (List ℕ)) → Holds work.now index.now cs → length cs ≡ count → unwrap_or result count ≡ number_in b.now cs }
{
    let (blocks, _) = work.as_chunks::<128>();
    let mut next = linked(index[1024 + bucket(h)], count);
    while let Some(i) = next {
        if index[i] == h as usize && blocks[i] == *b {
            return Some(i);
        }
        next = linked(index[512 + i], i);
    }
    None
}

// The number of the state b among the first `count`, and how many there are then: a new one is put behind them, unless they are 512. Ruled out
// (must-fail/): a state taken for another that has its hash, a block that runs over the one before, a new state that its bucket does not lead to.
pub fn enroll(work: &mut [u8], index: &mut [usize], count: usize, b: &[u8; 128]) -> Option<Enrolled>
    requires { (65536 ≤ length work.old) × ((1536 ≤ length index.old) × (count ≤ 512)) }
    ensures placed { IfSome result (λ e. e.number < 512) }
    ensures found { (cs : List (List ℕ)) → Holds work.old index.old cs → length cs ≡ count → MatchOption result (Full cs b.now work.new index.new) (Enrolls cs b.now work.new index.new) }
{
    let h = hash(b);
    if let Some(number) = find(work, index, count, h, b) {
        return Some(Enrolled { number, count });
    }
    if count == 512 {
        return None;
    }
    work[128 * count..128 * count + 128].copy_from_slice(b);
    let k = 1024 + bucket(h);
    index[count] = h as usize;
    index[512 + count] = index[k];
    index[k] = count + 1;
    Some(Enrolled {
        number: count,
        count: count + 1,
    })
}
