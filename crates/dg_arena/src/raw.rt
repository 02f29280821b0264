//! Blocks of raw memory. All that holds a pointer stands here.
ghost use Rattle.std.specs.Prelude.{◌≡◌, ℕ, ◌<◌, List, Option, Some, None, length, replicate, slice_index_or, slice_set, IfOk, IsSome, ⊤};
ghost use Rattle.std.specs.Vec.Ownership.{FitsInBlock};
ghost use base.Fml.{ftrue};
ghost use denote.RawPtr.{Ptr};
ghost use Rattle.dg_arena.specs.Memory.{owned, lent, titled};

use std::alloc::{AllocError, Allocator};
use std::marker::{Model, PhantomData, Send, Sync};
use std::mem::{align_of, size_of};

/// Where a block begins. It owns nothing.
pub struct Start<T> {
    ptr: *mut T,
}

impl<T> Clone for Start<T> {
    ghost is_clone = { λ x y. y ≡ x };

    ghost is_infallible = { λ _. ⊤ };

    fn clone(&self) -> Result<Start<T>, AllocError> {
        Ok(*self)
    }
}

impl<T> Copy for Start<T> {}

unsafe impl<T> Send for Start<T> {}

unsafe impl<T> Sync for Start<T> {}

/// The places of a block, each with a value or without. It takes no space: who has it knows the start.
pub struct Places<T> {
    mark: PhantomData<*const T>,
    ghost at: { Ptr },
    ghost places: { List (Option T) },
}

impl<T> Model for Places<T> {
    ghost also_owns = { λ p. owned T.row p.at p.places };

    ghost also_shares = { λ p _ κ. lent T.row p.at p.places κ };
}

unsafe impl<T: Send> Send for Places<T> {}

unsafe impl<T: Sync> Sync for Places<T> {}

/// The right to give a block back to its allocator. It takes no space.
pub struct Title<T, A: Allocator> {
    mark: PhantomData<*const (T, A)>,
    ghost at: { Ptr },
    ghost len: { ℕ },
    ghost alloc: { A },
}

impl<T, A: Allocator> Model for Title<T, A> {
    ghost also_owns = { λ t. titled T.row (A.dealloc_token t.alloc) t.at t.len };

    ghost also_shares = { λ _ _ _. ftrue };
}

unsafe impl<T, A: Allocator + Send> Send for Title<T, A> {}

// Threads that share a title can do nothing with it.
unsafe impl<T, A: Allocator> Sync for Title<T, A> {}

/// A block of so many places without values. An `Err` says that memory ran out.
pub(crate) fn allocate<T, A: Allocator>(
    alloc: &A,
    len: usize,
) -> Result<(Start<T>, Places<T>, Title<T, A>), AllocError>
    requires { FitsInBlock T.row len }
    ensures { IfOk result (λ r. (r.1.at ≡ r.0.ptr) × (r.1.places ≡ replicate len None) × (r.2.at ≡ r.0.ptr) × (r.2.len ≡ len) × (r.2.alloc ≡ alloc.now)) }
{
    match alloc.allocate(len * size_of::<T>(), align_of::<T>()) {
        Ok(block) => {
            let start = Start {
                ptr: block as *mut T,
            };
            Ok((
                start,
                Places { mark: PhantomData },
                Title { mark: PhantomData },
            ))
        }
        Err(error) => Err(error),
    }
}

/// Gives the block back. The values that stand in it are forgotten.
pub(crate) fn free<T, A: Allocator>(
    alloc: &A,
    start: Start<T>,
    len: usize,
    places: Places<T>,
    title: Title<T, A>,
)
    requires { (places.at ≡ start.ptr) × (length places.places ≡ len) × (title.at ≡ start.ptr) × (title.len ≡ len) × (title.alloc ≡ alloc.now) }
{
    let Places { mark: _ } = places;
    let Title { mark: _ } = title;
    unsafe {
        alloc.deallocate(start.ptr as *mut u8, len * size_of::<T>(), align_of::<T>());
    }
}

impl<T> Places<T> {
    /// Writes a value into a place. A value that stands there is forgotten.
    pub(crate) fn write(&mut self, start: Start<T>, index: usize, value: T)
        requires { (start.ptr ≡ self.old.at) × (index < length self.old.places) }
        ensures { (self.new.at ≡ self.old.at) × (self.new.places ≡ slice_set self.old.places index (Some value)) }
    {
        unsafe { start.ptr.add(index).write(value) }
    }

    /// The value that stands in a place.
    pub(crate) fn get(&self, start: Start<T>, index: usize) -> &T
        requires { (start.ptr ≡ self.now.at) × IsSome (slice_index_or self.now.places index None) }
        ensures { slice_index_or self.now.places index None ≡ Some result.now }
    {
        unsafe { &*start.ptr.add(index) }
    }
}
