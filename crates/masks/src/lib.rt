// Sets of carriers as the bits of one number: whether a carrier is in, what two sets share, one carrier more, the least
// carrier and those after it, all of them one after another, and the set that a row of a table marks.
#![tactic(auto)]

ghost use Rattle.std.specs.Prelude.{◌+◌, ◌<◌, ◌≤◌, length};
ghost use Rattle.ground.specs.Meanings.Sheet.{most_carriers};
ghost use Rattle.ground.specs.Laws.Telling.{Tells};
ghost use Rattle.std.specs.Iterator.{at_most};
ghost use Rattle.masks.specs.Masks.{Has, Both, With, LeastIn, Rest, NextCarrier, Marked};

// Whether carrier c is in the mask.
pub fn has(mask: u16, c: usize) -> bool
    requires { c < 16 }
    ensures { Tells result (Has mask c) }
{
    (mask >> c) % 2 == 1
}

// The carriers that are in both masks.
pub fn both(a: u16, b: u16) -> u16
    ensures { Both a b result }
{
    a & b
}

// The mask with carrier c as well.
pub fn with(mask: u16, c: usize) -> u16
    requires { c < 16 }
    ensures { With mask c result }
{
    mask | (1 << c)
}

// The least carrier of a mask that has one. The number of zeros is a u32, for which usize has no `From`.
pub fn first(mask: u16) -> usize
    requires { 0 < mask }
    ensures { LeastIn mask result }
{
    mask.trailing_zeros() as usize
}

// The carriers after the least one.
pub fn rest(mask: u16) -> u16
    requires { 0 < mask }
    ensures { Rest mask result }
{
    mask & (mask - 1)
}

// The carriers of a mask that are still to come, the least first.
#[derive(Drop)]
pub struct Carriers(pub u16);

impl Iterator for Carriers {
    type Item = usize;

    ghost next_gives = { λ s c t. NextCarrier s.0 c t.0 };

    ghost remaining = { λ s. at_most s.0 };

    fn next(&mut self) -> Option<usize> {
        if self.0 == 0 {
            return None;
        }
        let c = first(self.0);
        self.0 = rest(self.0);
        Some(c)
    }
}

// The carriers among the first k whose entry is not 0, of the entries from `at` on. (The table is whole, with the place of its row, since
// `Marked` and the laws of tables speak of places in it.)
pub fn marked(table: &[u8], at: usize, k: usize) -> u16
    requires { (k ≤ most_carriers) × (at + k ≤ length table.now) }
    ensures { Marked table.now at k result }
{
    let mut mask = 0;
    for (c, entry) in table[at..at + k].iter().enumerate() {
        if *entry != 0 {
            mask = with(mask, c);
        }
    }
    mask
}
