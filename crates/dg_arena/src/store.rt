//! Places in chunks, which stay where they are as more come.
ghost use Rattle.std.specs.Prelude.{◌≡◌, ◌<◌, ◌+◌, ◌*◌, ◌^◌, Some, None, [], ◌++◌, length, replicate, slice_index_or, slice_set, IfOk, OnOk, OnErr, IsSome};

use crate::chunk::Chunk;
use std::alloc::{AllocError, Global};
use std::marker::Model;

/// How many places a chunk has.
pub(crate) const CHUNK: usize = 1024;

/// Numbered places, each with a value or without.
#[derive(Drop)]
pub struct Store<T> {
    chunks: Vec<Chunk<T>>,
    len: usize,
}

impl<T> Model for Store<T> {
    ghost use Rattle.std.specs.Prelude.{◌≡◌, List, Option, length};
    ghost use Rattle.std.specs.List.{All};
    ghost use Rattle.std.specs.Coded.{coded_list, coded_option};
    ghost use Rattle.dg_arena.specs.Store.{joined};

    ghost Value = { List (Option T) };

    ghost coded = { coded_list (coded_option T.code) };

    ghost view = { λ s. joined s.chunks.items };

    ghost invariant = { λ s. All (λ c. length c ≡ 1024) s.chunks.items × (s.len ≡ length (joined s.chunks.items)) };
}

// So many chunks of places without values. An `Err` says that memory ran out.
fn blank_chunks<T>(alloc: Global, count: usize) -> Result<Vec<Chunk<T>>, AllocError>
    ensures { IfOk result (λ chunks. chunks.items ≡ replicate count (replicate 1024 None)) }
{
    let mut chunks = Vec::with_capacity(alloc, count)?;
    for n in 0..count {
        chunks.push(Chunk::new(alloc, CHUNK)?)?;
    }
    Ok(chunks)
}

impl<T> Store<T> {
    /// No place. Takes no memory yet.
    pub(crate) fn new(alloc: Global) -> Store<T>
        ensures { result ≡ [] }
    {
        Store {
            chunks: Vec::new(alloc),
            len: 0,
        }
    }

    /// Where the memory comes from.
    pub(crate) fn allocator(&self) -> &Global {
        self.chunks.allocator()
    }

    /// How many places there are.
    pub(crate) fn len(&self) -> usize
        ensures { result ≡ length self.now }
    {
        self.len
    }

    /// Puts this many chunks of places without values behind those that are there. An `Err` says that memory ran
    /// out, and nothing has changed.
    pub(crate) fn grow(&mut self, count: usize) -> Result<(), AllocError>
        requires { length self.old + count * 1024 < 2 ^ 64 }
        ensures ok { OnOk result (self.new ≡ self.old ++ replicate (count * 1024) None) }
        ensures err { OnErr result (self.new ≡ self.old) }
    {
        let mut more = blank_chunks(*self.chunks.allocator(), count)?;
        self.chunks.append(&mut more)?;
        self.len += count * CHUNK;
        Ok(())
    }

    /// Writes a value into a place.
    pub(crate) fn write(&mut self, n: usize, value: T)
        requires { n < length self.old }
        ensures { self.new ≡ slice_set self.old n (Some value) }
    {
        let chunk = &mut self.chunks[n / CHUNK];
        chunk.write(n % CHUNK, value);
    }

    /// The value that stands in a place.
    pub(crate) fn get(&self, n: usize) -> &T
        requires { IsSome (slice_index_or self.now n None) }
        ensures { slice_index_or self.now n None ≡ Some result.now }
    {
        self.chunks[n / CHUNK].get(n % CHUNK)
    }
}
