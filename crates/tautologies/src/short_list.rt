// A list in an array: it has room for a fixed number of items, and takes no memory from elsewhere.
ghost use Rattle.std.specs.Prelude.{◌≡◌, ◌<◌, ◌≤◌, [], ◌∷◌, ◌++◌, length, nat_le};

use std::marker::Model;

#[derive(Drop)]
pub(crate) struct ShortList<T: Copy, const MOST: usize> {
    items: [T; MOST],
    count: usize,
}

// Clauses see the items.
impl<T: Copy, const MOST: usize> Model for ShortList<T, MOST> {
    ghost use Rattle.std.specs.Prelude.{◌≤◌, List, take};

    ghost Value = { List T };

    ghost view = { λ l. take l.count l.items };

    ghost invariant = { λ l. l.count ≤ MOST };
}

impl<T: Copy, const MOST: usize> ShortList<T, MOST> {
    // An empty list, whose places hold an item that is never read.
    pub(crate) fn new(filler: T) -> ShortList<T, MOST>
        ensures { result ≡ [] }
    {
        ShortList {
            items: [filler; MOST],
            count: 0,
        }
    }

    pub(crate) fn as_slice(&self) -> &[T]
        ensures items { result.now ≡ self.now }
        ensures within { length result.now ≤ MOST }
    {
        &self.items[..self.count]
    }

    // Whether there is no room for one item more.
    pub(crate) fn is_full(&self) -> bool
        ensures { result ≡ nat_le MOST (length self.now) }
    {
        self.count >= MOST
    }

    // Puts an item at the end.
    pub(crate) fn push(&mut self, item: T)
        requires { length self.old < MOST }
        ensures { self.new ≡ self.old ++ item ∷ [] }
    {
        self.items[self.count] = item;
        self.count += 1;
    }
}
