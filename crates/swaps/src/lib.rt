// The swap kind, and what is done with swaps.
//
// A swap has 15 entries whatever the sheet's number of carriers; carriers that the sheet does not have stay. No function
// asks anything of its caller: each promise holds for all bytes, and is the definition that it names.
// `as` stands where a number is proved small enough, or where a size is made 64 bits wide: `From` has neither.
#![tactic(auto)]

ghost use Rattle.std.specs.Prelude.{◌≡◌, ◌&&◌, [], leb, length};
ghost use Rattle.ground.specs.Meanings.Group.{at, mul, identity, move};
ghost use Rattle.ground.specs.Meanings.Sheet.{all_new};
ghost use Rattle.ground.specs.Laws.Permutations.{inv};

use std::array;

// A swap: entry c is the carrier that carrier c goes to.
#[derive(Clone, Copy)]
pub struct Swap {
    pub to: [u8; 15],
}

impl Swap {
    // The most carriers that a swap moves.
    pub const WIDTH: usize = ground::CARRIERS;

    // The swap that moves nothing.
    pub fn identity() -> Swap
        ensures { result.to ≡ identity 15 }
    {
        Swap {
            to: array::from_fn(|c| c as u8),
        }
    }
}

// The carrier that g takes c to; 0 for what is no carrier, as `at` has it.
fn taken(g: &[u8; 15], c: u8) -> u8
    ensures { result ≡ at g.now c }
{
    g.get(usize::from(c)).copied().unwrap_or(0)
}

// First p, then q.
pub fn product(p: [u8; 15], q: [u8; 15]) -> [u8; 15]
    ensures { result ≡ mul p q }
{
    let mut both = p;
    move_row(q, &mut both);
    both
}

// What undoes p: where each carrier comes from, and 15 where none does (`inv`). The places are gone along from the last, so that of two
// with one carrier the first stands.
pub fn inverse(p: [u8; 15]) -> [u8; 15]
    ensures { result ≡ inv 15 p }
{
    let mut from = [15; 15];
    for (place, c) in p.iter().enumerate().rev() {
        let c = usize::from(*c);
        if c < Swap::WIDTH {
            from[c] = place as u8;
        }
    }
    from
}

// Applies g to each carrier of the row.
pub fn move_row(g: [u8; 15], row: &mut [u8])
    ensures { row.new ≡ move g row.old }
{
    for c in row.iter_mut() {
        *c = taken(&g, *c);
    }
}

// Whether the bytes are a permutation of 0 to k − 1, for their number k, at most 15.
pub fn is_permutation(bytes: &[u8]) -> bool
    ensures { result ≡ (leb (length bytes.now) 15 && all_new (length bytes.now) [] bytes.now) }
{
    let k = bytes.len();
    if Swap::WIDTH < k {
        return false;
    }
    let mut stood = [false; 15];
    for c in bytes {
        let c = usize::from(*c);
        if k <= c || stood[c] {
            return false;
        }
        stood[c] = true;
    }
    true
}
