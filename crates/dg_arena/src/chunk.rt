//! A block of places that is freed when it ends.
ghost use Rattle.std.specs.Prelude.{◌≡◌, ◌<◌, Some, None, length, replicate, slice_index_or, slice_set, IfOk, IsSome};

use crate::raw::{Places, Start, Title, allocate, free};
use std::alloc::{AllocError, Global};
use std::marker::Model;
use std_alloc::room::may_hold;

/// A block of places, each with a value or without. Its memory is freed when it ends.
pub struct Chunk<T> {
    start: Start<T>,
    len: usize,
    places: Places<T>,
    title: Title<T, Global>,
    alloc: Global,
}

impl<T> Model for Chunk<T> {
    ghost use Rattle.std.specs.Prelude.{◌≡◌, List, Option, length};
    ghost use Rattle.std.specs.Coded.{coded_list, coded_option};

    ghost Value = { List (Option T) };

    ghost coded = { coded_list (coded_option T.code) };

    ghost view = { λ c. c.places.places };

    ghost invariant = { λ c. (c.places.at ≡ c.start.ptr) × (length c.places.places ≡ c.len) × (c.title.at ≡ c.start.ptr) × (c.title.len ≡ c.len) × (c.title.alloc ≡ c.alloc) };
}

impl<T> Chunk<T> {
    /// A block of so many places without values. An `Err` says that memory ran out.
    pub(crate) fn new(alloc: Global, len: usize) -> Result<Chunk<T>, AllocError>
        ensures { IfOk result (λ c. c ≡ replicate len None) }
    {
        if !may_hold::<T>(len) {
            return Err(AllocError);
        }
        let (start, places, title) = allocate(&alloc, len)?;
        Ok(Chunk {
            start,
            len,
            places,
            title,
            alloc,
        })
    }

    /// Writes a value into a place.
    pub(crate) fn write(&mut self, index: usize, value: T)
        requires { index < length self.old }
        ensures { self.new ≡ slice_set self.old index (Some value) }
    {
        let start = self.start;
        self.places.write(start, index, value);
    }

    /// The value that stands in a place.
    pub(crate) fn get(&self, index: usize) -> &T
        requires { IsSome (slice_index_or self.now index None) }
        ensures { slice_index_or self.now index None ≡ Some result.now }
    {
        self.places.get(self.start, index)
    }
}

impl<T> Drop for Chunk<T> {
    fn drop(self) {
        let Chunk {
            start,
            len,
            places,
            title,
            alloc,
        } = self;
        free(&alloc, start, len, places, title);
    }
}
