// The planner as a program: reads a job sheet from standard input, and prints its listing or its refusal. A read or a write that fails
// ends it with that error.
// `as` stands where a number is proved small enough, or where a size is made 64 bits wide: `From` has neither.
#![tactic(auto)]

use ground::{Fault, LONGEST};
use listing::{Listed, list};
use std::io;
use std::io::Write;
use text::{Page, read_full};

// The most rows that may be opened.
const ALLOWANCE: u64 = 1000000;

// The length of the list that is lent for the rows.
const BYTES: usize = 24576;

// The length of the list that is lent for their class sizes.
const SIZES: usize = 2048;

// More than the longest line has.
const LINE: usize = 128;

// The length of the page that lines are put into, to be written together.
const PAGE: usize = 8192;

// Reads the sheet, one byte past the longest at most, which decides every sheet.
fn main(rt: HostRuntime) -> io::Result<()> {
    let mut sheet = [0u8; LONGEST + 1];
    let length = read_full(&mut rt.reader(), &mut sheet)?;
    report(&mut io::writer(&rt), &sheet[..length])
}

// Lists the plans of a sheet, and prints what the listing answers.
fn report(out: &mut impl Write, sheet: &[u8]) -> io::Result<()> {
    let mut bytes = [0u8; BYTES];
    let mut sizes = [0u64; SIZES];
    match list(sheet, ALLOWANCE, &mut bytes, &mut sizes) {
        Ok(listed) => print_listing(out, listed, &bytes, &sizes, risers(sheet)),
        Err(refused) => print_refusal(out, refused.fault()),
    }
}

// Prints the number and the place of a refusal, on a page that has room for one line. (A page and not `writeln!`, which would write the
// line in five pieces: others that write to the same end would come between them.)
fn print_refusal(out: &mut impl Write, fault: Fault) -> io::Result<()> {
    let mut line = [0u8; LINE];
    let mut page = Page::new(&mut line);
    page.put(b"refused ");
    page.put_number(u64::from(fault.number()));
    page.put(b" at ");
    page.put_number(fault.place() as u64);
    page.end_line(out, LINE)
}

// The number of risers that an accepted sheet states. (Its listing says that it has one; else there would be none.)
fn risers(sheet: &[u8]) -> usize {
    sheet.get(1).map_or(0, |risers| usize::from(*risers))
}

// Prints the head of a listing and a line for each listed row, a page at a time.
fn print_listing(
    out: &mut impl Write,
    listed: Listed,
    bytes: &[u8],
    sizes: &[u64],
    risers: usize,
) -> io::Result<()> {
    let mut lines = [0u8; PAGE];
    let mut page = Page::new(&mut lines);
    put_head(out, &mut page, listed)?;
    put_rows(out, &mut page, bytes, sizes, risers, listed.listed)?;
    page.print(out)
}

// Puts how many plans are listed, how many rows were opened and how many plans there are in all.
fn put_head(out: &mut impl Write, page: &mut Page, listed: Listed) -> io::Result<()> {
    page.put(b"plans ");
    page.put_number(listed.listed as u64);
    page.put(b" opened ");
    page.put_number(listed.opened);
    page.put(b" total ");
    page.put_number(listed.total);
    page.end_line(out, LINE)
}

// Puts a line for each listed row. By the listing's promise every one lies within the lists, and there is a riser.
fn put_rows(
    out: &mut impl Write,
    page: &mut Page,
    bytes: &[u8],
    sizes: &[u64],
    risers: usize,
    listed: usize,
) -> io::Result<()> {
    for (row, size) in bytes.chunks_exact(risers.max(1)).zip(sizes).take(listed) {
        put_row(out, page, row, *size)?;
    }
    Ok(())
}

// Puts the carriers of a row, and its class size.
fn put_row(out: &mut impl Write, page: &mut Page, row: &[u8], size: u64) -> io::Result<()> {
    for carrier in row {
        page.put_number(u64::from(*carrier));
        page.put(b" ");
    }
    page.put_number(size);
    page.end_line(out, LINE)
}
