// The entries of a table: next states, zeros and event bits, the conditions of No. 19 on them, in one pass.
#![tactic(auto)]

ghost use Rattle.std.specs.Prelude.{◌≡◌, not, ◌||◌, ◌+◌, ◌*◌, ◌≤◌, ◌<◌, length};
ghost use Rattle.paper.specs.IsTable.{wrong_next, wrong_zeros, wrong_event};
ghost use Rattle.layout.specs.Places.{place};
ghost use Rattle.counts.specs.Counts.{Counted};
ghost use Rattle.entries.specs.Entries.{next_of, run_right, row_right};

use counts::Counts;

// What an entry of zeros counts as, as `round` of `next_of`: state 0, or no state.
const ZEROS_PASS: usize = (1 << 26) - 1;

const ZEROS_FAIL: usize = 1 << 26;

// The next state of an entry as one number, its orders the `down` low bits, and no state where it is not possible. A product and no branch, since which
// modules run is not to be foretold.
fn next_of(entry: usize, down: usize, round: usize) -> usize
    requires { (down ≤ 16) × ((entry < 67108864) × (round ≤ 67108864)) }
    ensures { result ≡ next_of entry down round }
{
    ((entry >> down) + 512) % 1024 * ((entry + round) >> 26)
}

// Entries one after the other: the next state of each is a state.
#[inline(always)]
#[tactic(auto, using(crate::proofs::Runs::run_none, crate::proofs::Entries::entry_small))]
fn run_right(table: &[u8], counts: Counts, from: usize, count: usize, round: usize) -> bool
    requires { Counted table.now counts × ((count ≤ 8) × ((round ≤ 67108864) × (from + count * (10 + 2 * counts.modules) ≤ 8 * length table.now))) }
    ensures { result ≡ run_right table.now from count (2 * counts.modules) counts.states round }
{
    let down = 2 * counts.modules;
    let mut bit = from;
    let mut k = 0;
    // the place is carried along: with a range gone over, the check of a large table took over 1.2 times plain C's time
    while k < count {
        let entry = fields::get(table, bit, 10 + down);
        if counts.states <= next_of(entry, down, round) {
            return false;
        }
        bit += 10 + down;
        k += 1;
    }
    true
}

// The entries of one state: a module's may be zero, an event's not.
#[tactic(auto, using(crate::proofs::Rows::row_is, crate::proofs::Rows::run_within))]
fn row_right(table: &[u8], counts: Counts, state: usize) -> bool
    requires { Counted table.now counts × (state < counts.states) }
    ensures { result ≡ row_right table.now (place counts.modules counts.events state 0) counts.modules counts.events counts.states }
{
    let modules = counts.entry_place(state, 0);
    let events = counts.entry_place(state, counts.modules);
    run_right(table, counts, modules, counts.modules, ZEROS_PASS)
        && run_right(table, counts, events, counts.events, ZEROS_FAIL)
}

// All entries: next states, zeros and event bits, in one pass.
pub fn rows_right(table: &[u8], counts: Counts) -> bool
    requires { Counted table.now counts }
    ensures { result ≡ not (wrong_next table.now || wrong_zeros table.now || wrong_event table.now) }
{
    (0..counts.states).all(|state| row_right(table, counts, state))
}
