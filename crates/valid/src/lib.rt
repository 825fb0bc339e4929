// Is it a table: No. 19, for any bytes. `counts` has the header and `entries` the entries; the names, the start bits and the padding stand here.
#![tactic(auto)]

ghost use Rattle.std.specs.Prelude.{◌≡◌, true, false, not, ◌+◌, ◌*◌, ◌≤◌, length, MatchOption};
ghost use Rattle.paper.specs.IsTable.{ascend, wrong_name, wrong_start, wrong_padding, is_table};
ghost use Rattle.counts.specs.Counts.{Counted};

use counts::{Counts, header};
use entries::rows_right;

// Names from one on: each at most 25 and above the one before it.
fn ascending(table: &[u8], from: usize, count: usize) -> bool
    requires { (from + count ≤ 16) × (24 + 5 * (from + count) ≤ 8 * length table.now) }
    ensures { result ≡ ascend table.now from count }
{
    let mut least = 0;
    for k in 0..count {
        let name = fields::get(table, 24 + 5 * (from + k), 5);
        if 25 < name || name < least {
            return false;
        }
        least = name + 1;
    }
    true
}

fn names_right(table: &[u8], counts: Counts) -> bool
    requires { Counted table.now counts }
    ensures { result ≡ not (wrong_name table.now) }
{
    ascending(table, 0, counts.modules) && ascending(table, counts.modules, counts.events)
}

// Each start bit is state 0's possible bit.
fn starts_right(table: &[u8], counts: Counts) -> bool
    requires { Counted table.now counts }
    ensures { result ≡ not (wrong_start table.now) }
{
    let start = 24 + 5 * counts.letters() + counts.events;
    (0..counts.modules).all(|module| {
        fields::get(table, start + module, 1)
            == fields::get(table, counts.entry_place(0, module), 1)
    })
}

// What is left of the last byte.
#[tactic(auto, using(crate::proofs::Check::padding_right))]
fn padding_right(table: &[u8], counts: Counts) -> bool
    requires { Counted table.now counts }
    ensures { result ≡ not (wrong_padding table.now) }
{
    let end = counts.entry_place(counts.states, 0);
    fields::get(table, end, 8 * table.len() - end) == 0
}

// The counts of a table, or that it is none.
pub fn checked(table: &[u8]) -> Option<Counts>
    ensures { MatchOption result (is_table table.now ≡ false) (λ counts. Counted table.now counts × (is_table table.now ≡ true)) }
{
    let counts = header(table)?;
    let right = names_right(table, counts)
        && starts_right(table, counts)
        && rows_right(table, counts)
        && padding_right(table, counts);
    right.then_some(counts)
}
