// The text of one line of a listing, while it is written.
ghost use Rattle.std.specs.Prelude.{◌≡◌, ◌+◌, ◌≤◌, [], ◌++◌, length, decimal};
ghost use Rattle.listing.specs.Listing.{line};

use std::marker::Model;

// The text of no line is longer.
pub(crate) const TEXT_MOST: usize = 128;

// A number of 64 bits has no more digits.
pub(crate) const DIGITS_MOST: usize = 20;

// Numbers are written in decimal.
const BASE: usize = 10;

// Fixed room and no `String`: nothing is allocated after a case is made. And methods of its own and no `write!`: no clause
// says when that succeeds, and a listing is written in every case.
#[derive(Drop)]
pub(crate) struct Text {
    bytes: [u8; TEXT_MOST],
    len: usize,
}

// Clauses see the bytes that are written so far.
impl Model for Text {
    ghost use Rattle.std.specs.Prelude.{ℕ, ◌≤◌, List, take};
    ghost use Rattle.listing.specs.declared.text.TheConstants.{TEXT_MOST};

    ghost Value = { List ℕ };

    ghost view = { λ l. take l.len l.bytes };

    ghost invariant = { λ l. l.len ≤ TEXT_MOST };
}

impl Text {
    pub(crate) fn new() -> Text
        ensures { result ≡ [] }
    {
        Text {
            bytes: [0; TEXT_MOST],
            len: 0,
        }
    }

    // Adds a text. Each method asks for the room that it takes: with an error in its place, a line could fail.
    pub(crate) fn add(&mut self, text: &[u8])
        requires { length self.old + length text.now ≤ TEXT_MOST }
        ensures { self.new ≡ self.old ++ text.now }
    {
        let end = self.len + text.len();
        self.bytes[self.len..end].copy_from_slice(text);
        self.len = end;
    }

    // Adds a number in decimal: the digits before the last one, and the last one.
    fn add_number(&mut self, number: usize)
        requires { length self.old + length (decimal number) ≤ TEXT_MOST }
        ensures { self.new ≡ self.old ++ decimal number }
    {
        // by name, so that the proof does not hang on how the test is written
        let is_longer = number >= BASE;
        if is_longer {
            self.add_number(number / BASE);
        }
        self.add(&[b'0' + (number % BASE) as u8]);
    }

    // Adds a name and its number, with room for as many digits as a number can have.
    pub(crate) fn add_field(&mut self, name: &[u8], number: usize)
        requires { length self.old + length name.now + DIGITS_MOST ≤ TEXT_MOST }
        ensures text { self.new ≡ self.old ++ name.now ++ decimal number }
        ensures within { length self.new ≤ length self.old + length name.now + DIGITS_MOST }
    {
        self.add(name);
        self.add_number(number);
    }

    // Adds the byte that ends every line.
    pub(crate) fn end(&mut self)
        requires { length self.old + 1 ≤ TEXT_MOST }
        ensures { self.new ≡ line self.old }
    {
        self.add(b"\n");
    }

    pub(crate) fn as_slice(&self) -> &[u8]
        ensures text { result.now ≡ self.now }
        ensures within { length result.now ≤ TEXT_MOST }
    {
        &self.bytes[..self.len]
    }
}
