// The rules that a row must keep, as masks: what a sheet's tables say, written so that a rule is asked once for all carriers.
//
// For each riser stand a mask of its list, and the rules that end there, one after another: for each the other riser, and for each
// carrier of that riser the mask of the carriers that go with it. `Book::of` writes all this, and `standing` reads it: the carriers
// that may follow a row. What the two promise is in specs/Books.antt, what the tables are in Laws/Tables.antt of ground. The book is
// flat, and no list of rules for each riser: a rule is then one place, which `standing` counts on, and its mask is one load.
// `as` stands where a number is proved small enough, or where a size is made 64 bits wide: `From` has neither.
#![tactic(auto)]

ghost use Rattle.std.specs.Prelude.{◌≡◌, ◌+◌, ◌*◌, ◌≤◌, ◌<◌, length, take};
ghost use Rattle.ground.specs.Meanings.Group.{at};
ghost use Rattle.ground.specs.Meanings.Sheet.{most_carriers, most_risers, most_rules};
ghost use Rattle.ground.specs.Laws.Rows.{Below};
ghost use Rattle.ground.specs.Laws.Tables.{Few};
ghost use Rattle.rules.specs.Books.{Orderly, Shows, Standing};
ghost use Rattle.rules.specs.Narrowing.{Askable, mask_of};
ghost use Rattle.rules.specs.Writing.{FewAt, Masked, Pages, Written, most_ends};

use ground::{CARRIERS, ENDS, PAIRS, RISERS, Tables};
use masks::{both, first, has, marked};

// The masks of the rules: one for each two risers and each carrier of the first.
pub const MASKS: usize = ENDS * CARRIERS;

// The lists and the rules of a sheet as masks. The j-th rule that ends at riser d is at d · 12 + j, and its mask for carrier u of the
// other riser at (d · 12 + j) · 15 + u.
#[derive(Drop)]
pub struct Book {
    // The mask of each riser's list.
    pub lists: [u16; RISERS],

    // How many rules end at each riser.
    pub counts: [u8; RISERS],

    // The other riser of each rule.
    pub others: [u8; ENDS],

    // For each rule and each carrier of its other riser, the carriers that go with it.
    pub masks: [u16; MASKS],
}

impl Book {
    // Writes the masks of rule q, which stands at the place `rule` of the book: one for each carrier of its other riser.
    fn write_masks(&mut self, carriers: usize, q: usize, rule: usize, tables: &Tables)
        requires { (carriers ≤ most_carriers) × (q < most_rules) × (rule < most_ends) }
        ensures { Masked carriers tables.now q rule self.old self.new }
    {
        let from = rule * CARRIERS;
        for (u, mask) in self.masks[from..from + carriers].iter_mut().enumerate() {
            *mask = marked(&tables.allowed, q * PAIRS + u * CARRIERS, carriers);
        }
    }

    // Writes the rules that end at riser d, and returns how many they are.
    fn write_rules(&mut self, carriers: usize, d: usize, tables: &Tables) -> usize
        requires { (carriers ≤ most_carriers) × (d < most_risers) × FewAt d tables.now.ends }
        ensures { Written carriers tables.now d d (d * most_risers + result) self.old self.new }
    {
        let first = d * RISERS;
        let mut rule = first;
        for (e, number) in tables.ends[first..first + d].iter().enumerate() {
            if let Some(q) = usize::from(*number).checked_sub(1) {
                self.others[rule] = e as u8;
                self.write_masks(carriers, q, rule, tables);
                rule += 1;
            }
        }
        rule - first
    }

    // Writes what the tables say of riser d: its list, and the rules that end there.
    fn write_page(&mut self, carriers: usize, d: usize, tables: &Tables)
        requires { (carriers ≤ most_carriers) × (d < most_risers) × FewAt d tables.now.ends }
        ensures { Pages carriers tables.now d self.old → Pages carriers tables.now (d + 1) self.new }
    {
        self.lists[d] = marked(&tables.listed, d * CARRIERS, carriers);
        self.counts[d] = self.write_rules(carriers, d, tables) as u8;
    }

    // What the tables say of the lists and the rules of the risers, for so many carriers.
    pub fn of(carriers: usize, risers: usize, tables: &Tables) -> Book
        requires within { (carriers ≤ most_carriers) × (risers ≤ most_risers) }
        requires few { Few risers tables.now.ends }
        ensures { Shows carriers risers tables.now result }
    {
        let mut book = Book {
            lists: [0; RISERS],
            counts: [0; RISERS],
            others: [0; ENDS],
            masks: [0; MASKS],
        };
        // d is a riser, told to `write_page`; no list is gone along.
        for d in 0..risers {
            book.write_page(carriers, d, tables);
        }
        book
    }

    // The carriers that the rule at a place of the book leaves, by the carrier of its other riser.
    fn left_by(&self, rule: usize, row: &[u8; RISERS]) -> u16
        requires { Askable self.now.others row.now rule }
        ensures { result ≡ mask_of self.now row.now rule }
    {
        let other = usize::from(self.others[rule]);
        let u = usize::from(row[other]);
        self.masks[rule * CARRIERS + u]
    }

    // The carriers of `least` that may follow the row's first d carriers. A carrier is dropped at the first rule that it breaks, and the
    // next one is tried. That rule drops all others that break it too, so that the next one goes on at the rule after it. (A loop over
    // carriers, in it one over rules, with a labelled continue, is the form that is asked for here: docs/DECISIONS.md, 12 and 16.)
    pub fn standing(&self, d: usize, least: u16, row: &[u8; RISERS]) -> u16
        requires below { (d < most_risers) × Below most_carriers (take d row.now) }
        requires orderly { Orderly self.now d }
        ensures { Standing self.now (take d row.now) least result }
    {
        let mut open = both(self.lists[d], least);
        let mut rule = d * RISERS;
        let last = rule + usize::from(self.counts[d]);
        'carriers: while open != 0 {
            let c = first(open);
            // The place of the next rule lasts from one carrier to the next, so it is counted: a range lent to each inner loop is no plainer.
            while rule < last {
                let left = self.left_by(rule, row);
                open = both(open, left);
                rule += 1;
                if !has(open, c) {
                    continue 'carriers;
                }
            }
            return open;
        }
        0
    }
}
