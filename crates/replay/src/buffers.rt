// The buffers that a call is lent, and what they hold before it.
use image::{Clusters, Counts, Size};
use std::alloc::{AllocError, Global};

// What stands at each place of a buffer before a call.
pub(crate) trait Pattern: PartialEq + Copy {
    fn at(place: usize) -> Self;
}

// No number that a run leaves, and another one at each place.
impl Pattern for u32 {
    fn at(place: usize) -> u32 {
        (place % 1000000) as u32 + 3000000000
    }
}

// In a picture or a destination.
impl Pattern for u8 {
    fn at(place: usize) -> u8 {
        (place % 251) as u8
    }
}

// A buffer of this length with the pattern in it.
pub(crate) fn filled<T: Pattern>(alloc: Global, length: usize) -> Result<Vec<T>, AllocError> {
    (0..length).map(|place| T::at(place)).collect(alloc)
}

// Whether the items are those that stand from a place on before a call.
pub(crate) fn are_filled<T: Pattern>(items: &[T], from: usize) -> bool {
    items
        .iter()
        .zip(from..)
        .all(|(item, place)| *item == T::at(place))
}

// What there is of each list of a sheet: its length, its buffer, or the numbers that are recorded of it.
#[derive(Clone, Copy, Drop)]
pub(crate) struct Lists<T> {
    pub labels: T,
    pub links: T,
    pub table: T,
    pub outputs: T,
}

impl Lists<Vec<u32>> {
    // Buffers of these lengths with the pattern in them.
    pub fn filled(alloc: Global, lengths: Lists<usize>) -> Result<Self, AllocError> {
        Ok(Lists {
            labels: filled(alloc, lengths.labels)?,
            links: filled(alloc, lengths.links)?,
            table: filled(alloc, lengths.table)?,
            outputs: filled(alloc, lengths.outputs)?,
        })
    }

    // Whether every buffer has the pattern in it.
    pub fn are_untouched(&self) -> bool {
        are_filled(&self.labels, 0)
            & are_filled(&self.links, 0)
            & are_filled(&self.table, 0)
            & are_filled(&self.outputs, 0)
    }

    // The sheet, for a call that reads it.
    pub fn clusters(&self, size: Size, counts: Counts) -> Clusters<'_> {
        Clusters {
            size,
            counts,
            links: &self.links,
            table: &self.table,
            outputs: &self.outputs,
        }
    }
}
