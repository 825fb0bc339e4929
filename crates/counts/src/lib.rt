// The header of a table of layout 1: layout, counts and length, the first conditions of No. 19; and where its entries lie.
#![tactic(auto)]

ghost use Rattle.std.specs.Prelude.{◌≡◌, ◌+◌, ◌≤◌, false, length, MatchOption};
ghost use Rattle.layout.specs.Places.{place};
ghost use Rattle.paper.specs.IsTable.{is_table};
ghost use Rattle.counts.specs.Counts.{Read, Counted, in_limits};

// How many there are.
#[derive(Clone, Copy, PartialEq, Eq, Debug)]
pub struct Counts {
    pub modules: usize,
    pub events: usize,
    pub states: usize,
}

impl Counts {
    // The counts that a header gives, within their limits or not.
    #[tactic(auto, using(fields::proofs::Fields::field_lt), unfolding(paper::specs::IsTable::module_count, paper::specs::IsTable::event_count, paper::specs::IsTable::state_count))]
    fn read(table: &[u8]) -> Self
        requires { 3 ≤ length table.now }
        ensures { Read table.now result }
    {
        Counts {
            modules: fields::get(table, 4, 4),
            events: fields::get(table, 8, 4),
            states: fields::get(table, 12, 12) + 1,
        }
    }

    fn in_limits(self) -> bool
        ensures { result ≡ in_limits self }
    {
        self.modules <= 8 && self.events <= 8 && self.states <= 512
    }

    // How many letters there are, modules before events.
    pub fn letters(self) -> usize
        requires { (self.modules ≤ 8) × (self.events ≤ 8) }
        ensures { result ≡ self.modules + self.events }
    {
        self.modules + self.events
    }

    // The bit where an entry begins; for the count of states and letter 0, the bit where they end.
    pub fn entry_place(self, state: usize, letter: usize) -> usize
        requires { (self.modules ≤ 8) × ((self.events ≤ 8) × ((state ≤ 512) × (letter ≤ 16))) }
        ensures { result ≡ place self.modules self.events state letter }
    {
        let letters = self.letters();
        24 + 6 * letters + (state * letters + letter) * (10 + 2 * self.modules)
    }
}

// Layout, counts and length: what must be right before any other field is read.
pub fn header(table: &[u8]) -> Option<Counts>
    ensures { MatchOption result (is_table table.now ≡ false) (Counted table.now) }
{
    if table.len() < 3 || fields::get(table, 0, 4) != 1 {
        return None;
    }
    let counts = Counts::read(table);
    let right = counts.in_limits() && table.len() == (counts.entry_place(counts.states, 0) + 7) / 8;
    right.then_some(counts)
}
