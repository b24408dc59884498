// Text, put together word by word on a page, a list that the caller lends, and written a page at a time; and a list read full.
#![tactic(auto)]

ghost use Rattle.std.specs.Prelude.{◌≡◌, OnOk, OnErr};
ghost use Rattle.std.specs.Io.KnownBytes.{Appends};
ghost use Rattle.text.specs.Text.{Room, Put, PutNumber, Ended, Unwritten, line_end, up_to, handed};

mod reading;

use itoa::Buffer;
pub use reading::read_full;
use std::io;
use std::io::Write;

// A page that is written word by word: its bytes, and the place of the next word. The bytes are a list that the caller lends, of the
// length that the caller likes, so that no heap is needed; how far they are written is beside them, since the list has no room for it.
#[derive(Drop)]
pub struct Page<'a> {
    pub bytes: &'a mut [u8],
    pub at: usize,
}

impl<'a> Page<'a> {
    // A page with nothing on it yet.
    pub fn new(bytes: &'a mut [u8]) -> Page<'a>
        ensures bytes { result.bytes ≡ bytes.entry }
        ensures start { result.at ≡ 0 }
    {
        Page { bytes, at: 0 }
    }

    // Whether there is room for so many bytes more.
    fn has_room(&self, length: usize) -> bool
        ensures { Room self.now.bytes.now self.now.at length result }
    {
        length <= self.bytes.len() && self.at <= self.bytes.len() - length
    }

    // Puts a word onto the page; a word for which there is no room is left out.
    pub fn put(&mut self, word: &[u8])
        ensures same_page { self.new.bytes.ghost_name ≡ self.old.bytes.ghost_name }
        ensures put { Put self.old.bytes.now self.old.at word.now self.new.bytes.now self.new.at }
    {
        if self.has_room(word.len()) {
            let next = self.at + word.len();
            self.bytes[self.at..next].copy_from_slice(word);
            self.at = next;
        }
    }

    // Puts a number onto the page, in decimal, as a word.
    pub fn put_number(&mut self, n: u64)
        ensures same_page { self.new.bytes.ghost_name ≡ self.old.bytes.ghost_name }
        ensures put { PutNumber self.old.bytes.now self.old.at n self.new.bytes.now self.new.at }
    {
        let mut digits = Buffer::new();
        self.put(digits.format(n).as_bytes());
    }

    // Ends a line by a line feed, so that a line of at most so many bytes may follow: after the line feed or, where there may be no room
    // for it, at the start of the page, which is written before. Only that can fail, and the page keeps the line feed then.
    pub fn end_line<W: Write>(&mut self, out: &mut W, longest: usize) -> io::Result<()>
        ensures same_page { self.new.bytes.ghost_name ≡ self.old.bytes.ghost_name }
        ensures ok { OnOk result (Ended self.old.bytes.now self.old.at longest self.new.bytes.now self.new.at) }
        ensures err { OnErr result (Unwritten self.old.bytes.now self.old.at longest self.new.bytes.now) }
        ensures place { OnErr result (self.new.at ≡ line_end self.old.bytes.now self.old.at) }
        ensures written { OnOk result (Appends (W.contents out.old) (W.contents out.new)
            (handed self.new.bytes.now (line_end self.old.bytes.now self.old.at) longest)) }
    {
        self.put(b"\n");
        if !self.has_room(longest) {
            self.print(out)?;
            self.at = 0;
        }
        Ok(())
    }

    // Writes the page up to the place of the next word; nothing where that is past its end.
    pub fn print<W: Write>(&self, out: &mut W) -> io::Result<()>
        ensures { OnOk result (Appends (W.contents out.old) (W.contents out.new) (up_to self.now.bytes.now self.now.at)) }
    {
        print(out, self.bytes, self.at)
    }
}

// Writes a page up to a place; nothing where the place is past its end.
pub fn print<W: Write>(out: &mut W, page: &[u8], at: usize) -> io::Result<()>
    ensures { OnOk result (Appends (W.contents out.old) (W.contents out.new) (up_to page.now at)) }
{
    if at <= page.len() {
        out.write_all(&page[..at])?;
    }
    Ok(())
}
