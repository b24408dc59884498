// The rules' section of a job sheet: its count, then as many rules, each of two risers and the pairs that it allows. Risers and pairs are
// read by functions that are told what came before as one number, the least that may come next (specs/Least of crate `fields`).
//
// The pairs are entered into the table `allowed`, and the rules by their risers into `ends` (specs/Tables of crate `fields`). The three
// tables are lent one by one, and not as one struct: so a function says by its types which it only reads and which it writes. The bytes
// and the place are two parameters, as in crate `fields`. n is the number of risers.
// `as` stands where a number is proved small enough, or where a size is made 64 bits wide: `From` has neither.
#![tactic(auto)]

ghost use Rattle.std.specs.Prelude.{◌≡◌, Bool, List, [], ◌≤◌, ◌<◌};
ghost use Rattle.ground.specs.Meanings.Sheet.{number_of, wrong_rule, wrong_pair, many, Pair, Rule, allowed_pair, rule, most_risers, most_rules};
ghost use Rattle.fields.specs.Tables.{is_listed, key, mark_pairs, rule_tables, put_rule, mark_rules};
ghost use Rattle.fields.specs.Least.{pair_from, both_listed, ordered, rule_from};
ghost use Rattle.fields.specs.Answers.{Answers, pair, tell_section, tell_two, tell_rule, tell_count};
ghost use Rattle.fields.specs.Sections.{section};
ghost use Rattle.rule_fields.specs.Rules.{Tests};

use fields::{count_at, is_listed, two_at};
use ground::{ALLOWED, CARRIERS, ENDS, Fault, LISTED, PAIRS, RISERS, RULES, Refusal};

// The key of a pair: pairs ascend as their keys do.
fn key(left: usize, right: usize) -> usize
    requires { (left < 256) × (right < 256) }
    ensures { result ≡ key (pair left right) }
{
    left * CARRIERS + right
}

// Two bytes, one field, that pass the test as a pair and whose key is `least` or more, and the place after them; refused where they are not.
fn pair_where<T: Fn(usize, usize) -> bool>(
    s: &[u8],
    at: usize,
    least: usize,
    refusal: Refusal,
    test: T,
) -> Result<(usize, usize, usize), Fault>
    requires { T.IsAlwaysCallable test }
    ensures { (t : Pair → Bool) → Tests (T.post test) t → result ≡ tell_two (pair_from (number_of refusal) t least s.now at) }
{
    let (left, right, next) = two_at(s, at)?;
    if !test(left, right) || key(left, right) < least {
        return Err(Fault::at(refusal, at));
    }
    Ok((left, right, next))
}

// A rule's two risers, whose key is `least` or more, and the place after them.
fn rule_risers(s: &[u8], at: usize, n: usize, least: usize) -> Result<(usize, usize, usize), Fault>
    ensures { result ≡ tell_two (pair_from wrong_rule (ordered n) least s.now at) }
{
    pair_where(s, at, least, Refusal::WrongRule, |a, b| a < b && b < n)
}

// An allowed pair of the risers a and b, whose key is `least` or more, and the place after it.
fn pair_at(
    s: &[u8],
    at: usize,
    a: usize,
    b: usize,
    listed: &[u8; LISTED],
    least: usize,
) -> Result<(usize, usize, usize), Fault>
    ensures { result ≡ tell_two (pair_from wrong_pair (both_listed listed.now a b) least s.now at) }
{
    pair_where(s, at, least, Refusal::WrongPair, |u, v| {
        is_listed(listed, a, u) && is_listed(listed, b, v)
    })
}

// The allowed pairs of rule q, of the risers a and b; the answer is the place after them. (A loop of its own, as each run of items
// has: crate `fields`.)
fn read_pairs(
    s: &[u8],
    from: usize,
    a: usize,
    b: usize,
    count: usize,
    q: usize,
    listed: &[u8; LISTED],
    allowed: &mut [u8; ALLOWED],
) -> Result<usize, Fault>
    requires { q < most_rules }
    ensures { Answers tell_section (many (allowed_pair (is_listed listed.now a) (is_listed listed.now b)) count [] s.now from) result (λ (l : List Pair). allowed.new ≡ mark_pairs allowed.old q l) }
{
    let mut at = from;
    let mut least = 0;
    for _ in 0..count {
        let (u, v, next) = pair_at(s, at, a, b, listed, least)?;
        let key = key(u, v);
        allowed[q * PAIRS + key] = 1;
        least = key + 1;
        at = next;
    }
    Ok(at)
}

// Rule q, whose risers' key is `least` or more. The answer is its two risers, and the place after it.
fn read_rule(
    s: &[u8],
    at: usize,
    n: usize,
    q: usize,
    least: usize,
    listed: &[u8; LISTED],
    allowed: &mut [u8; ALLOWED],
    ends: &mut [u8; ENDS],
) -> Result<(usize, usize, usize), Fault>
    requires { (n ≤ most_risers) × (q < most_rules) }
    ensures { Answers tell_rule (rule_from n (is_listed listed.now) least s.now at) result (λ (x : Rule). rule_tables allowed.new ends.new ≡ put_rule (rule_tables allowed.old ends.old) q x) }
{
    let (a, b, second) = rule_risers(s, at, n, least)?;
    let (count, third) = count_at(s, second, 0, PAIRS)?;
    let next = read_pairs(s, third, a, b, count, q, listed, allowed)?;
    ends[b * RISERS + a] = (q + 1) as u8;
    Ok((a, b, next))
}

// The rules; the answer is the place after them. (A loop of its own too; q is a rule that is told to `read_rule`, and no list is gone
// along.)
fn read_rules(
    s: &[u8],
    from: usize,
    n: usize,
    count: usize,
    listed: &[u8; LISTED],
    allowed: &mut [u8; ALLOWED],
    ends: &mut [u8; ENDS],
) -> Result<usize, Fault>
    requires { (n ≤ most_risers) × (count ≤ most_rules) }
    ensures { Answers tell_section (many (rule n (is_listed listed.now)) count [] s.now from) result (λ (l : List Rule). rule_tables allowed.new ends.new ≡ mark_rules (rule_tables allowed.old ends.old) l) }
{
    let mut at = from;
    let mut least = 0;
    for q in 0..count {
        let (a, b, next) = read_rule(s, at, n, q, least, listed, allowed, ends)?;
        least = key(a, b) + 1;
        at = next;
    }
    Ok(at)
}

// The rules' section: their count, then as many rules. The answer is how many rules there are, and the place after the section. (Three
// lines as in each section.)
pub fn rules_section(
    s: &[u8],
    at: usize,
    n: usize,
    listed: &[u8; LISTED],
    allowed: &mut [u8; ALLOWED],
    ends: &mut [u8; ENDS],
) -> Result<(usize, usize), Fault>
    requires { n ≤ most_risers }
    ensures { Answers tell_count (section 0 most_rules (rule n (is_listed listed.now)) s.now at) result (λ (l : List Rule). rule_tables allowed.new ends.new ≡ mark_rules (rule_tables allowed.old ends.old) l) }
{
    let (rules, first) = count_at(s, at, 0, RULES)?;
    let next = read_rules(s, first, n, rules, listed, allowed, ends)?;
    Ok((rules, next))
}
