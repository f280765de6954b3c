// The page that a text is composed on. A contract sees the text so far, and no place is counted outside it.
// (d) Functions put words, numbers and lines on it: `write!` answers a Result, though the contract has room, and so is no plainer.
ghost use Rattle.std.specs.Prelude.{◌≡◌, ◌<◌, ◌≤◌, List, ℕ, [], ◌∷◌, ◌++◌, take};
ghost use Rattle.report.specs.Text.{decimal, spaced};
ghost use Rattle.report.specs.Report.{text_limit};
ghost use Rattle.report.specs.Writes.{HasRoom};

use super::TEXT_LIMIT;
use std::marker::Model;

const SPACE: u8 = b' ';

const NEWLINE: u8 = b'\n';

// As many bytes as the longest text has, and how many of them are written.
// (a) They stand first in an array, with their number beside it, since there is no heap.
#[derive(Drop)]
pub(crate) struct Page {
    bytes: [u8; TEXT_LIMIT],
    len: usize,
}

impl Model for Page {
    ghost Value = { List ℕ };

    ghost view = { λ page. take page.len page.bytes };

    ghost invariant = { λ page. page.len ≤ text_limit };
}

impl Page {
    pub(crate) fn new() -> Page
        ensures { result ≡ [] }
    {
        Page {
            bytes: [0; TEXT_LIMIT],
            len: 0,
        }
    }

    // What is written.
    pub(crate) fn text(&self) -> &[u8]
        ensures { result.now ≡ self.now }
    {
        &self.bytes[..self.len]
    }

    // (d) Each function asks for room in a clause, since its own text says how much: a page with the room in its type would have to test it.
    fn put_byte(&mut self, byte: u8)
        requires { HasRoom self.old (byte ∷ []) }
        ensures { self.new ≡ self.old ++ (byte ∷ []) }
    {
        let at = self.len;
        self.bytes[at] = byte;
        self.len = at + 1;
    }

    fn put_word(&mut self, word: &[u8])
        requires { HasRoom self.old word.now }
        ensures { self.new ≡ self.old ++ word.now }
    {
        let end = self.len + word.len();
        self.bytes[self.len..end].copy_from_slice(word);
        self.len = end;
    }

    // In decimal: all digits but the last, then the last.
    // (b) Inlined, with a call for the front alone, and the place in a local above: else the place went through memory with each byte, and the
    // report of 1,920 open lines took 27.3 µs, and 14.4 with this.
    #[cycle(digits)]
    #[inline(always)]
    fn put_number(&mut self, n: usize)
        requires { HasRoom self.old (decimal n) }
        ensures { self.new ≡ self.old ++ decimal n }
    {
        if n < 10 {
            self.put_byte(b'0' + n as u8);
        } else {
            self.put_front(n / 10);
            self.put_byte(b'0' + (n % 10) as u8);
        }
    }

    // The digits in front of the last: a number too.
    #[cycle(digits)]
    fn put_front(&mut self, n: usize)
        requires { HasRoom self.old (decimal n) }
        ensures { self.new ≡ self.old ++ decimal n }
    {
        self.put_number(n);
    }

    // A word, then numbers, a space before each, and a newline.
    pub(crate) fn put_line(&mut self, word: &[u8], numbers: &[usize])
        requires { HasRoom self.old (word.now ++ spaced numbers.now) }
        ensures { self.new ≡ self.old ++ (word.now ++ spaced numbers.now) }
    {
        self.put_word(word);
        for &number in numbers {
            self.put_byte(SPACE);
            self.put_number(number);
        }
        self.put_byte(NEWLINE);
    }
}
