// The fields of a job sheet, and its section of risers. Each function reads from a place on, in the caller's own bytes, and answers what
// it read with the place after it, or the fault that refuses it. The bytes and the place stay two parameters: the reader of a whole sheet,
// which holds both, is a thin struct over these functions (crate `sheet`).
//
// A field is a number, a count, or two bytes. The risers' lists are entered into the table `listed`, which the caller lends
// (`specs/Tables`) and `is_listed` asks. A carrier is read by a function that is told the carriers before it as one number, the least that
// may come next (`specs/Least`). k is the number of carriers: that it is at most 15 is asked where it is needed, since a type of its own
// for it would be taken apart again at each comparison.
#![tactic(auto)]

ghost use Rattle.std.specs.Prelude.{◌≡◌, List, [], ℕ, ◌≤◌, ◌<◌};
ghost use Rattle.ground.specs.Meanings.Sheet.{number_of, many, carrier, riser, count, two, most_carriers, most_risers};
ghost use Rattle.fields.specs.Tables.{mark_list, mark_lists, is_listed};
ghost use Rattle.fields.specs.Least.{number_from};
ghost use Rattle.fields.specs.Answers.{Answers, tell_number, tell_section, tell_two, tell_count};
ghost use Rattle.fields.specs.Sections.{section};

use ground::{CARRIERS, Fault, LISTED, RISERS, Refusal};

// The byte at a place, from `least` on and under `bound`, and the place after it; refused where it is not.
fn number_at(
    s: &[u8],
    at: usize,
    least: usize,
    bound: usize,
    refusal: Refusal,
) -> Result<(usize, usize), Fault>
    ensures { result ≡ tell_number (number_from least bound (number_of refusal) s.now at) }
{
    let value = usize::from(*s.get(at).ok_or(Fault::at(Refusal::SheetEnds, at))?);
    if value < least || bound <= value {
        return Err(Fault::at(refusal, at));
    }
    Ok((value, at + 1))
}

// A count, from `least` to `most`, and the place after it.
pub fn count_at(s: &[u8], at: usize, least: usize, most: usize) -> Result<(usize, usize), Fault>
    requires { most < 256 }
    ensures { result ≡ tell_number (count least most s.now at) }
{
    number_at(s, at, least, most + 1, Refusal::WrongCount)
}

// Two bytes, one field, and the place after them.
pub fn two_at(s: &[u8], at: usize) -> Result<(usize, usize, usize), Fault>
    ensures { result ≡ tell_two (two s.now at) }
{
    let ends = Fault::at(Refusal::SheetEnds, at);
    let left = s.get(at).ok_or(ends)?;
    let right = s.get(at + 1).ok_or(ends)?;
    Ok((usize::from(*left), usize::from(*right), at + 2))
}

// The d carriers of riser r's list; the answer is the place after them. (Each run of items has a loop of its own: one that is shared would
// promise what it leaves as a fold over what its closure holds, in place of five lines.)
fn read_list(
    s: &[u8],
    from: usize,
    k: usize,
    d: usize,
    r: usize,
    listed: &mut [u8; LISTED],
) -> Result<usize, Fault>
    requires { (k ≤ most_carriers) × (r < most_risers) }
    ensures { Answers tell_section (many (carrier k) d [] s.now from) result (λ (l : List ℕ). listed.new ≡ mark_list listed.old r l) }
{
    let mut at = from;
    let mut least = 0;
    for _ in 0..d {
        let (c, next) = number_at(s, at, least, k, Refusal::WrongCarrier)?;
        listed[r * CARRIERS + c] = 1;
        least = c + 1;
        at = next;
    }
    Ok(at)
}

// Riser r's list, after its count; the answer is the place after it.
fn read_riser(
    s: &[u8],
    at: usize,
    k: usize,
    r: usize,
    listed: &mut [u8; LISTED],
) -> Result<usize, Fault>
    requires { (k ≤ most_carriers) × (r < most_risers) }
    ensures { Answers tell_section (riser k [] s.now at) result (λ (l : List ℕ). listed.new ≡ mark_list listed.old r l) }
{
    let (d, next) = count_at(s, at, 1, k)?;
    read_list(s, next, k, d, r, listed)
}

// The lists of the risers, riser 0's first; the answer is the place after them. (The number of a riser is counted, since it is told to
// `read_riser`; no list is gone along.)
fn read_lists(
    s: &[u8],
    from: usize,
    k: usize,
    count: usize,
    listed: &mut [u8; LISTED],
) -> Result<usize, Fault>
    requires { (k ≤ most_carriers) × (count ≤ most_risers) }
    ensures { Answers tell_section (many (riser k) count [] s.now from) result (λ (l : List (List ℕ)). listed.new ≡ mark_lists listed.old l) }
{
    let mut at = from;
    for r in 0..count {
        at = read_riser(s, at, k, r, listed)?;
    }
    Ok(at)
}

// The risers' section: their count, then as many lists. The answer is how many risers there are, and the place after the section. (Each
// section has these three lines, as each run of items has its loop.)
pub fn risers_section(
    s: &[u8],
    at: usize,
    k: usize,
    listed: &mut [u8; LISTED],
) -> Result<(usize, usize), Fault>
    requires { k ≤ most_carriers }
    ensures { Answers tell_count (section 1 most_risers (riser k) s.now at) result (λ (l : List (List ℕ)). listed.new ≡ mark_lists listed.old l) }
{
    let (risers, first) = count_at(s, at, 1, RISERS)?;
    let next = read_lists(s, first, k, risers, listed)?;
    Ok((risers, next))
}

// Carrier c is in riser r's list.
pub fn is_listed(listed: &[u8; LISTED], r: usize, c: usize) -> bool
    ensures { result ≡ is_listed listed.now r c }
{
    r < RISERS && c < CARRIERS && listed[r * CARRIERS + c] == 1
}
