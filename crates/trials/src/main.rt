// Holds the proved calls to brute force: asks the questions on standard input, and prints a line for each answer. The file stdout
// beside this has what brute force says; tools/trials makes both.
//
// A question is a head of sixteen bytes, then a sheet, then what its kind has besides. Numbers have their low byte first.
//
//   0       the kind
//   1       what the lent lists are filled from
//   2, 3    the length of the sheet
//   4, 5    the length of the first lent list
//   6, 7    the length of the second
//   8 - 15  a number
//
//   kind    first lent list    second lent list    number                   besides
//   LIST    rows' bytes        sizes               the allowance            nothing
//   FOLD    first image        member              the length of the row    the row
//
// An answer's line is that of `./ask` without its ID (client/ask.rs). Where a row is folded, MEMBER is not the member itself, of which
// there may be several, but what it makes of the row, and then whether it is a permutation. A question of a kind that is not known is
// answered `? no such kind`, and is the last, since nobody knows where the next begins.
//
// A further kind is a row above, a variant of `Kind` with its number, an arm of `answer`, and a function like `listing_trial`. A read or a write that fails
// ends the program with that error.
// `as` stands where a number is proved small enough, or where a size is made 64 bits wide: `From` has neither.
#![tactic(auto)]

ghost use Rattle.std.specs.Prelude.{◌≡◌, ◌<◌};
ghost use Rattle.text.specs.Digits.{hex_digit_ascii};

use folding::fold;
use ground::{Fault, LONGEST, Told};
use listing::list;
use std::io;
use std::io::{Read, Write};
use text::{Page, read_full};

// The kinds of questions.
#[derive(Clone, Copy)]
enum Kind {
    List,
    Fold,
}

// What is no kind.
#[derive(Clone, Copy)]
struct NoSuchKind;

// The kind of a number.
impl TryFrom<u8> for Kind {
    type Error = NoSuchKind;

    fn try_from(number: u8) -> Result<Kind, NoSuchKind> {
        match number {
            0 => Ok(Kind::List),
            1 => Ok(Kind::Fold),
            _ => Err(NoSuchKind),
        }
    }
}

// The length of a question's head.
const HEAD: usize = 16;

// The most bytes that a sheet has.
const SHEET: usize = LONGEST + 1;

// The most carriers that a row has here.
const ROW: usize = 64;

// The most bytes that a lent list or buffer has here.
const BYTES: usize = 1024;

// The most sizes that a lent list has here.
const SIZES: usize = 128;

// More than the longest line has.
const LINE: usize = 8192;

// More than there are questions.
const TURNS: usize = 100000;

// A question's head: its kind, what the lent lists are filled from, the lengths of the sheet and of both lists, and the number.
#[derive(Clone, Copy)]
struct Head {
    kind: u8,
    from: u8,
    sheet: usize,
    first: usize,
    second: usize,
    number: u64,
}

impl Head {
    // What the bytes of a head say.
    fn of(bytes: &[u8; HEAD]) -> Head {
        let [
            kind,
            from,
            sheet,
            sheet_high,
            first,
            first_high,
            second,
            second_high,
            ..
        ] = *bytes;
        let mut number = [0u8; 8];
        number.copy_from_slice(&bytes[8..]);
        Head {
            kind,
            from,
            sheet: length([sheet, sheet_high]),
            first: length([first, first_high]),
            second: length([second, second_high]),
            number: u64::from_le_bytes(number),
        }
    }

    // The length of the row to fold, which the number is.
    fn row(self) -> usize {
        (self.number & 0xffff) as usize
    }
}

// A length that has two bytes.
fn length(bytes: [u8; 2]) -> usize {
    usize::from(u16::from_le_bytes(bytes))
}

// Asks one question after another.
fn main(rt: HostRuntime) -> io::Result<()> {
    let mut input = rt.reader();
    let mut out = io::writer(&rt);
    for _ in 0..TURNS {
        if !trial(&mut input, &mut out)? {
            break;
        }
    }
    Ok(())
}

// Asks the next question and prints its answer; false where there is no next one that can be asked.
fn trial(input: &mut impl Read, out: &mut impl Write) -> io::Result<bool> {
    let mut head = [0u8; HEAD];
    let mut bytes = [0u8; SHEET];
    if read_full(input, &mut head)? < HEAD {
        return Ok(false);
    }
    let head = Head::of(&head);
    match read(input, &mut bytes, head.sheet)? {
        Some(sheet) => answer(input, out, head, sheet),
        None => Ok(false),
    }
}

// Asks a question of the kind that its head says, and prints its answer; false where it is not whole, or of a kind that is not known.
fn answer(
    input: &mut impl Read,
    out: &mut impl Write,
    head: Head,
    sheet: &[u8],
) -> io::Result<bool> {
    match Kind::try_from(head.kind) {
        Ok(Kind::List) => listing_trial(out, head, sheet),
        Ok(Kind::Fold) => folding_trial(input, out, head, sheet),
        Err(NoSuchKind) => {
            writeln!(out, "? no such kind")?;
            Ok(false)
        }
    }
}

// Reads so many bytes into the start of a list, and gives them; none where fewer are left, or the list is too short.
fn read<'a>(
    input: &mut impl Read,
    list: &'a mut [u8],
    length: usize,
) -> io::Result<Option<&'a [u8]>> {
    if list.len() < length {
        return Ok(None);
    }
    if read_full(input, &mut list[..length])? < length {
        return Ok(None);
    }
    Ok(Some(&list[..length]))
}

// Lists the sheet as the head says, and prints the answer; false where the head asks for longer lists than there are. (A yes or no says
// whether to go on, here and below; an enum of two names would say no more.)
fn listing_trial(out: &mut impl Write, head: Head, sheet: &[u8]) -> io::Result<bool> {
    let mut bytes = [0u8; BYTES];
    let mut sizes = [0u64; SIZES];
    if BYTES < head.first || SIZES < head.second {
        return Ok(false);
    }
    fill(&mut bytes, head.from, |byte| byte.wrapping_add(37));
    fill(&mut sizes, u64::from(head.from), |size| {
        size.wrapping_add(11400714819323198485)
    });
    print_listing(
        out,
        sheet,
        head.number,
        &mut bytes[..head.first],
        &mut sizes[..head.second],
    )?;
    Ok(true)
}

// Reads the row that comes next, folds it as the head says, and prints the answer; false where the row is cut short.
fn folding_trial(
    input: &mut impl Read,
    out: &mut impl Write,
    head: Head,
    sheet: &[u8],
) -> io::Result<bool> {
    let mut carriers = [0u8; ROW];
    match read(input, &mut carriers, head.row())? {
        Some(row) => row_trial(out, head, sheet, row),
        None => Ok(false),
    }
}

// Folds a row as the head says, and prints the answer; false where the head asks for longer buffers than there are.
fn row_trial(out: &mut impl Write, head: Head, sheet: &[u8], row: &[u8]) -> io::Result<bool> {
    let mut first = [0u8; BYTES];
    let mut member = [0u8; BYTES];
    if BYTES < head.first || BYTES < head.second {
        return Ok(false);
    }
    fill(&mut first, head.from, |byte| byte.wrapping_add(37));
    fill(&mut member, head.from, |byte| byte.wrapping_add(37));
    print_folding(
        out,
        sheet,
        row,
        &mut first[..head.first],
        &mut member[..head.second],
    )?;
    Ok(true)
}

// Lists the sheet, and prints the answer with both lists as they are then.
fn print_listing(
    out: &mut impl Write,
    sheet: &[u8],
    allowance: u64,
    bytes: &mut [u8],
    sizes: &mut [u64],
) -> io::Result<()> {
    let (refused, counted) = match list(sheet, allowance, bytes, sizes) {
        Ok(counted) => (None, counted),
        Err(refused) => (Some(refused.fault()), refused.listed()),
    };
    let mut line = [0u8; LINE];
    let mut line = Page::new(&mut line);
    put_told(&mut line, refused);
    put_next(&mut line, counted.listed as u64);
    put_next(&mut line, counted.opened);
    put_next(&mut line, counted.total);
    put_bytes(&mut line, bytes);
    put_sizes(&mut line, sizes);
    line.end_line(out, LINE)
}

// Folds the row, and prints the answer with the first buffer as it is then.
fn print_folding(
    out: &mut impl Write,
    sheet: &[u8],
    row: &[u8],
    first: &mut [u8],
    member: &mut [u8],
) -> io::Result<()> {
    let (refused, size) = match fold(sheet, row, first, member) {
        Ok(size) => (None, size),
        Err(fault) => (Some(fault), 0),
    };
    let accepted = refused.is_none();
    let mut line = [0u8; LINE];
    let mut line = Page::new(&mut line);
    put_told(&mut line, refused);
    put_next(&mut line, size);
    put_bytes(&mut line, first);
    if accepted {
        put_member(&mut line, member, row);
    } else {
        put_bytes(&mut line, member);
    }
    line.end_line(out, LINE)
}

// Fills a list with different ones, from one on, each by what comes next.
fn fill<T: Copy, F: Fn(T) -> T>(list: &mut [T], from: T, next: F)
    requires { F.IsAlwaysCallable next }
{
    let mut value = from;
    for item in list {
        *item = value;
        value = next(value);
    }
}

// Puts the number and the place of an answer at the start of the line.
fn put_told(line: &mut Page, refused: Option<Fault>) {
    let told = Told::from(refused);
    line.put_number(u64::from(told.number));
    put_next(line, told.place as u64);
}

// Puts a space and a number into the line.
fn put_next(line: &mut Page, n: u64) {
    line.put(b" ");
    line.put_number(n);
}

// Puts a byte into the line, in hex. A page takes words, so that the two digits are made here.
fn put_byte(line: &mut Page, byte: u8) {
    line.put(&[hex_digit(byte / 16), hex_digit(byte % 16)]);
}

// A number below 16 as a digit in hex.
fn hex_digit(n: u8) -> u8
    requires { n < 16 }
    ensures { result ≡ hex_digit_ascii n }
{
    if n < 10 { b'0' + n } else { b'a' - 10 + n }
}

// Puts a space and some bytes into the line.
fn put_bytes(line: &mut Page, bytes: &[u8]) {
    if bytes.is_empty() {
        return line.put(b" -");
    }
    line.put(b" ");
    for byte in bytes {
        put_byte(line, *byte);
    }
}

// Puts a space and some sizes into the line.
fn put_sizes(line: &mut Page, sizes: &[u64]) {
    let Some((first, rest)) = sizes.split_first() else {
        return line.put(b" -");
    };
    put_next(line, *first);
    for size in rest {
        line.put(b",");
        line.put_number(*size);
    }
}

// Puts a space and what a member makes of a row into the line, and whether it is a permutation.
fn put_member(line: &mut Page, member: &[u8], row: &[u8]) {
    line.put(b" ");
    for carrier in row {
        put_byte(line, image(member, *carrier));
    }
    if is_permutation(member) {
        line.put(b" permutation");
    } else {
        line.put(b" none");
    }
}

// What a member makes of a carrier, or 255 where it says nothing of it, as the stored answers have it.
fn image(member: &[u8], carrier: u8) -> u8 {
    member.get(usize::from(carrier)).copied().unwrap_or(255)
}

// Whether each number below the list's length is in the list.
fn is_permutation(list: &[u8]) -> bool {
    (0..list.len()).all(|x| list.iter().any(|y| usize::from(*y) == x))
}
