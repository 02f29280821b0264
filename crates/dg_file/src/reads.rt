//! Reading the header, the lengths and the gates of the segments, and ranges of the file.

ghost use Rattle.std.specs.Prelude.{◌≡◌, ◌≤◌, ◌+◌, ◌-◌, true, false, None, Some, Ok, Err, length, take, drop, slice_index, IfOk, IfErr, OnOk, OnErr, IsErrOf, IfSome};
ghost use Rattle.dg_disk.specs.Calls.{Fails, IsOnDevice, ReadsDisk, SyncsDisk};
ghost use Rattle.dg_disk.specs.Counts.{raised_by};
ghost use Rattle.dg_disk.specs.Image.{HasRange, IsLengthOf};
ghost use Rattle.dg_history.specs.History.{are_parameters};
ghost use Rattle.dg_index.specs.ImageText.{is_within};
ghost use Rattle.dg_index.specs.OpenedIndex.{opening};
ghost use Rattle.dg_segment.specs.Directories.{segment_lengths_at, fit_in};
ghost use Rattle.dg_file.specs.Headers.{IsFoundIn, Misses};
ghost use Rattle.dg_file.specs.Images.{RefusesOpening, taken_after};
ghost use Rattle.dg_file.specs.OpeningBytes.{TakesUpToOpening, blank_bytes};

use crate::fault::{FetchFault, ReopenFault};
use crate::header::{HEADER_BYTES, header_of, is_closed};
use dg_disk::{Disk, Failed};
use dg_history::{Form, Params};
use dg_segment::{LENGTHS_BYTES, Lengths};
use std::alloc::Global;

/// What the header of an index says.
#[derive(Clone, Copy)]
pub(crate) struct Found {
    pub form: Form,
    pub params: Params,
    // the bytes of the image
    pub len: u64,
    // the gate of the first segment
    pub gate: u8,
}

/// Reads the header, once what was written is on the device.
pub(crate) fn read_header<D: Disk>(disk: &mut D) -> Result<Found, ReopenFault>
    ensures found { IfOk result (λ found. IfSome (D.image disk.old) (λ image. IsFoundIn image found)) }
    ensures parameters { IfOk result (λ found. are_parameters found.params.l found.params.k ≡ true) }
    ensures long { IfOk result (λ found. 18 ≤ found.len) }
    ensures taken { OnOk result (D.taken disk.new ≡ raised_by 18 (D.taken disk.old)) }

    // errors
    ensures refused { IfErr result (λ fault. IfSome (D.image disk.old) (λ image. RefusesOpening fault (opening image))) }
    ensures cause { IsErrOf result ReopenFault.Disk → Fails D.Disk disk.old disk.new }
    ensures bounded { OnErr result (IfSome (D.image disk.old) (λ image. D.taken disk.new ≤ D.taken disk.old + length image)) }
    ensures within { OnErr result (IfSome (D.image disk.old) (λ image. TakesUpToOpening image (D.taken disk.old) (D.taken disk.new))) }
    ensures blank { IsErrOf result ReopenFault.Blank → IfSome (D.image disk.old) (λ image. D.taken disk.new ≡ taken_after (blank_bytes image) (D.taken disk.old)) }

    // frame
    ensures frame { SyncsDisk D.Disk disk.old disk.new }

    // crashes
    ensures settled { OnOk result (IsOnDevice D.Disk disk.new) }
    ensures settled_blank { IsErrOf result ReopenFault.Blank → IsOnDevice D.Disk disk.new }
{
    disk.sync()?;
    let len = disk.len()?;
    if len < HEADER_BYTES as u64 {
        return Err(ReopenFault::Blank);
    }
    let mut header = [0; HEADER_BYTES];
    disk.read_at(0, &mut header)?;
    if is_closed(&header, len) {
        return Err(ReopenFault::Blank);
    }
    match header_of(&header) {
        Some(said) => Ok(Found {
            form: said.form,
            params: said.params,
            len,
            gate: header[17],
        }),
        None => Err(ReopenFault::Foreign),
    }
}

// The length of the image, which was `len` when it was asked for last. Where that does not reach far enough it is asked for
// once more: another run may have added a batch since.
fn length_again<D: Disk>(disk: &mut D, len: u64, reaches: bool) -> Result<u64, Failed>
    requires { IsLengthOf (D.image disk.old) len }
    ensures len { IfOk result (λ now. IsLengthOf (D.image disk.old) now) }
    ensures grown { IfOk result (λ now. len ≤ now) }
    ensures none_taken { D.taken disk.new ≡ D.taken disk.old }

    // errors
    ensures cause { OnErr result (Fails D.Disk disk.old disk.new) }

    // frame
    ensures frame { ReadsDisk D.Disk disk.old disk.new }
{
    if reaches {
        return Ok(len);
    }
    let now = disk.len()?;
    // Of an image that was cut a read says so.
    Ok(if len < now { now } else { len })
}

/// Reads the two lengths with which the segment at the offset begins, in an image of `len` bytes or more.
/// The length is asked for once more where the segment would end behind it: its gate is open, and a gate is opened
/// once its segment is there. `ReopenFault::Damaged` where the segment and the gate behind it would not fit.
pub(crate) fn read_lengths<D: Disk>(
    disk: &mut D,
    offset: u64,
    len: &mut u64,
) -> Result<Lengths, ReopenFault>
    requires len { IsLengthOf (D.image disk.old) len.old }
    requires within { offset ≤ len.old }
    ensures len { IsLengthOf (D.image disk.old) len.new }
    ensures grown { len.old ≤ len.new }
    ensures lengths { IfOk result (λ lengths. IfSome (D.image disk.old) (λ image. lengths ≡ segment_lengths_at image offset)) }
    ensures fit { IfOk result (λ lengths. fit_in offset len.new lengths ≡ true) }
    ensures taken { OnOk result (D.taken disk.new ≡ raised_by 16 (D.taken disk.old)) }

    // errors
    ensures refused { IfErr result (λ fault. IfSome (D.image disk.old) (λ image. Misses offset (is_within image offset ≡ false) fault)) }
    ensures bounded { OnErr result (D.taken disk.new ≤ D.taken disk.old + (len.new - offset)) }
    ensures short { OnErr result (D.taken disk.new ≤ D.taken disk.old + 16) }
    ensures cause { IsErrOf result ReopenFault.Disk → Fails D.Disk disk.old disk.new }

    // frame
    ensures frame { ReadsDisk D.Disk disk.old disk.new }
{
    let begun = length_again(disk, *len, (LENGTHS_BYTES as u64) < *len - offset)?;
    *len = begun;
    if begun - offset <= LENGTHS_BYTES as u64 {
        return Err(ReopenFault::Damaged(offset));
    }
    let mut bytes = [0; LENGTHS_BYTES];
    disk.read_at(offset, &mut bytes)?;
    let lengths = Lengths::read(&bytes);
    let ended = length_again(disk, begun, lengths.fit_in(offset, begun))?;
    *len = ended;
    if lengths.fit_in(offset, ended) {
        Ok(lengths)
    } else {
        Err(ReopenFault::Damaged(offset))
    }
}

/// Reads the byte at the offset.
#[tactic(auto, using(crate::proofs::ImageParts::found_byte))]
pub(crate) fn read_byte<D: Disk>(disk: &mut D, offset: u64) -> Result<u8, Failed>
    requires { HasRange (D.image disk.old) offset 1 }
    ensures byte { IfOk result (λ byte. IfSome (D.image disk.old) (λ image. byte ≡ slice_index image offset)) }
    ensures taken { OnOk result (D.taken disk.new ≡ raised_by 1 (D.taken disk.old)) }

    // errors
    ensures none_taken { OnErr result (D.taken disk.new ≡ D.taken disk.old) }
    ensures cause { OnErr result (Fails D.Disk disk.old disk.new) }

    // frame
    ensures frame { ReadsDisk D.Disk disk.old disk.new }
{
    let mut byte = [0];
    disk.read_at(offset, &mut byte)?;
    Ok(byte[0])
}

/// The bytes of a range of the image, in memory from `alloc`. Reads nothing where the range is empty.
pub(crate) fn read_range<D: Disk>(
    alloc: Global,
    disk: &mut D,
    offset: u64,
    len: u64,
) -> Result<Vec<u8>, FetchFault>
    requires { HasRange (D.image disk.old) offset len }
    ensures bytes { IfOk result (λ bytes. IfSome (D.image disk.old) (λ image. bytes.items ≡ take len (drop offset image))) }
    ensures len { IfOk result (λ bytes. length bytes.items ≡ len) }
    ensures taken { OnOk result (D.taken disk.new ≡ taken_after len (D.taken disk.old)) }

    // errors
    ensures cause { IsErrOf result FetchFault.Disk → Fails D.Disk disk.old disk.new }
    ensures none_taken { OnErr result (D.taken disk.new ≡ D.taken disk.old) }

    // frame
    ensures frame { ReadsDisk D.Disk disk.old disk.new }
{
    if len == 0 {
        return Ok(Vec::new(alloc));
    }
    let mut bytes = vec![in alloc; 0; len as usize]?;
    disk.read_at(offset, &mut bytes)?;
    Ok(bytes)
}
