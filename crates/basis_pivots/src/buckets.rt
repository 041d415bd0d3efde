//! Rows or columns in lists by how many entries they have.

use crate::entries::NONE;
use std::alloc::{AllocError, Global};

/// What stands beside an item in its list, and which list it is in.
#[derive(Clone, Copy)]
struct Link {
    next: u32,
    back: u32,
    count: usize,
}

/// The count of an item that is in no list.
const UNCOUNTED: usize = usize::MAX;

/// An item that is in no list.
const LOOSE: Link = Link {
    next: NONE,
    back: NONE,
    count: UNCOUNTED,
};

/// Items in lists by their count; the item that was put in last stands first.
#[derive(Drop)]
pub(crate) struct Buckets {
    first: Vec<u32>,
    links: Vec<Link>,
}

fn link_of(links: &[Link], item: u32) -> Link {
    let item = item as usize;
    if item < links.len() {
        links[item]
    } else {
        LOOSE
    }
}

fn set_next(links: &mut [Link], item: u32, next: u32) {
    let item = item as usize;
    if item < links.len() {
        links[item].next = next;
    }
}

fn set_back(links: &mut [Link], item: u32, back: u32) {
    let item = item as usize;
    if item < links.len() {
        links[item].back = back;
    }
}

fn set(links: &mut [Link], item: u32, to: Link) {
    let item = item as usize;
    if item < links.len() {
        links[item] = to;
    }
}

impl Buckets {
    /// No items.
    pub fn new(alloc: Global) -> Buckets {
        Buckets {
            first: Vec::new(alloc),
            links: Vec::new(alloc),
        }
    }

    /// So many items, in no list; counts go up to `most`.
    pub fn resize(&mut self, size: usize, most: usize) -> Result<(), AllocError> {
        self.first.resize(most.saturating_add(1), NONE)?;
        self.links.resize(size, LOOSE)
    }

    /// The first item with a count.
    pub fn first(&self, count: usize) -> u32 {
        if count < self.first.len() {
            self.first[count]
        } else {
            NONE
        }
    }

    /// The item behind another one.
    pub fn next(&self, item: u32) -> u32 {
        link_of(&self.links, item).next
    }

    /// How many counts there are.
    pub fn counts(&self) -> usize {
        self.first.len()
    }

    /// How many items there are, in lists or not.
    pub fn items(&self) -> usize {
        self.links.len()
    }

    /// Takes an item out of its list.
    pub fn remove(&mut self, item: u32) {
        let own = link_of(&self.links, item);
        if own.count == UNCOUNTED {
            return;
        }
        set_back(&mut self.links, own.next, own.back);
        if own.back != NONE {
            set_next(&mut self.links, own.back, own.next);
        } else if own.count < self.first.len() {
            self.first[own.count] = own.next;
        }
        set(&mut self.links, item, LOOSE);
    }

    /// Puts an item in front of the list of its count.
    pub fn put(&mut self, item: u32, count: usize) {
        self.remove(item);
        if count < self.first.len() {
            let next = self.first[count];
            let back = NONE;
            self.first[count] = item;
            set_back(&mut self.links, next, item);
            set(&mut self.links, item, Link { next, back, count });
        }
    }

    /// Moves an item that is in a list to the list of another count.
    pub fn recount(&mut self, item: u32, count: usize) {
        if link_of(&self.links, item).count != UNCOUNTED {
            self.put(item, count);
        }
    }
}
