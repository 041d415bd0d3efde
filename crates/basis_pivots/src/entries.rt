//! Numbers with the places where they stand.

/// No place at all.
pub const NONE: u32 = u32::MAX;

/// A number and the row or the column where it stands.
#[derive(Clone, Copy)]
pub struct Entry<T> {
    pub at: u32,
    pub value: T,
}

/// The number at a place of a list, `NONE` where the list is shorter.
#[inline(always)]
pub fn at(list: &[u32], place: u32) -> u32 {
    let place = place as usize;
    if place < list.len() {
        list[place]
    } else {
        NONE
    }
}

/// Writes a number at a place, if the list has it.
#[inline(always)]
pub fn put(list: &mut [u32], place: u32, value: u32) {
    let place = place as usize;
    if place < list.len() {
        list[place] = value;
    }
}

/// A number as one of 32 bits; `NONE` where it is too large.
#[inline(always)]
pub fn narrow(number: usize) -> u32 {
    if number < NONE as usize {
        number as u32
    } else {
        NONE
    }
}
