// A table: a list whose memory is set aside once.
ghost use Rattle.std.specs.Prelude.{◌≡◌, ◌<◌, ◌≤◌, [], length, None, IfOk, IfSome, nat_le};
ghost use Rattle.std.specs.List.{slice_get};
ghost use Rattle.lists.specs.Adding.{first_like, first_like_from, number_for, add_after};

use std::alloc::{AllocError, Global};
use std::marker::Model;

/// A table of at most `MOST` items. Each has a number from 0, which it keeps.
#[derive(Drop)]
pub struct Table<T, const MOST: u16> {
    items: Vec<T>,
}

// Clauses see the items, by number.
impl<T, const MOST: u16> Model for Table<T, MOST> {
    ghost use Rattle.std.specs.Prelude.{◌≤◌, List, vec_items, vec_len, vec_capacity};

    ghost Value = { List T };

    ghost view = { λ t. vec_items t.items };

    ghost invariant = { λ t. (vec_len t.items ≤ MOST) × (MOST ≤ vec_capacity t.items) };
}

impl<T, const MOST: u16> Table<T, MOST> {
    /// An empty table, with memory for all that it will ever hold; an error where memory is lacking.
    pub fn new(heap: Global) -> Result<Table<T, MOST>, AllocError>
        ensures { IfOk result (λ t. t ≡ []) }
    {
        Ok(Table {
            items: Vec::with_capacity(heap, usize::from(MOST))?,
        })
    }

    /// The items, by number, `MOST` at most.
    pub fn as_slice(&self) -> &[T]
        ensures items { result.now ≡ self.now }
        ensures within { length result.now ≤ MOST }
    {
        self.items.as_slice()
    }

    /// Whether there is no room for one more item.
    pub fn is_full(&self) -> bool
        ensures { result ≡ nat_le MOST (length self.now) }
    {
        self.items.len() >= usize::from(MOST)
    }
}

impl<T: Copy, const MOST: u16> Table<T, MOST> {
    /// The item with a number, none past the last.
    pub fn get(&self, number: u16) -> Option<T>
        ensures { result ≡ slice_get self.now number }
    {
        self.items.get(usize::from(number)).copied()
    }

    /// Adds an item, and answers its number. None where the table is full.
    pub fn push(&mut self, item: T) -> Option<u16>
        ensures number { result ≡ number_for MOST self.old None }
        ensures after { self.new ≡ add_after MOST self.old item None }
    {
        if self.is_full() {
            return None;
        }
        let number = self.items.len() as u16;
        self.items.push_reserved(item);
        Some(number)
    }
}

// Where the first item that equals this one stands.
fn first_equal<T: Copy + PartialEq>(items: &[T], item: T) -> Option<usize>
    ensures number { result ≡ first_like T.eq items.now item }
    ensures within { IfSome result (λ n. n < length items.now) }
{
    items.iter().position(|old| *old == item)
}

impl<T: Copy + PartialEq, const MOST: u16> Table<T, MOST> {
    /// The number of the first item that equals this one, or none.
    pub fn find(&self, item: T) -> Option<usize>
        ensures number { result ≡ first_like T.eq self.now item }
        ensures within { IfSome result (λ n. n < MOST) }
    {
        first_equal(self.as_slice(), item)
    }

    // The same from a number on: no item below it is looked at.
    fn find_from(&self, start: usize, item: T) -> Option<usize>
        ensures number { result ≡ first_like_from T.eq start self.now item }
        ensures within { IfSome result (λ n. n < MOST) }
    {
        let rest = self.as_slice().get(start..)?;
        Some(start + first_equal(rest, item)?)
    }

    /// The number of the first item that equals this one, which is added if there is none. None where the table is full.
    pub fn enter(&mut self, item: T) -> Option<u16>
        ensures number { result ≡ number_for MOST self.old (first_like T.eq self.old item) }
        ensures after { self.new ≡ add_after MOST self.old item (first_like T.eq self.old item) }
    {
        let found = self.find(item);
        self.found_or_added(found, item)
    }

    /// The same, where items below a number are not looked at.
    pub fn enter_from(&mut self, start: usize, item: T) -> Option<u16>
        ensures number { result ≡ number_for MOST self.old (first_like_from T.eq start self.old item) }
        ensures after { self.new ≡ add_after MOST self.old item (first_like_from T.eq start self.old item) }
    {
        let found = self.find_from(start, item);
        self.found_or_added(found, item)
    }

    // The number at which an item was found, or else that of one more.
    fn found_or_added(&mut self, found: Option<usize>, item: T) -> Option<u16>
        requires { IfSome found (λ n. n < MOST) }
        ensures number { result ≡ number_for MOST self.old found }
        ensures after { self.new ≡ add_after MOST self.old item found }
    {
        match found {
            Some(old) => Some(old as u16),
            None => self.push(item),
        }
    }
}
