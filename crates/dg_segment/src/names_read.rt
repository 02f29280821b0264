//! Reading the names of a directory, which are added to those before them.

ghost use Rattle.std.specs.Prelude.{◌≡◌, ℕ, ◌+◌, ◌<◌, ◌≤◌, List, Some, false, length, IfOk, IfSome, IsErrOf};
ghost use Rattle.std.specs.Option.{option_map};
ghost use Rattle.dg_text.specs.declared.limits.TheConstants.{NAMES_MAX};
ghost use Rattle.dg_text.specs.Names.{are_new};
ghost use Rattle.dg_index.specs.ImageText.{name_at, names_at};
ghost use Rattle.dg_segment.specs.declared.names_read.DirectoryFault.TheVariants.{Memory};
ghost use Rattle.dg_segment.specs.Directories.{is_fresh, TakesName, TakesNames};

use dg_names::{Names, is_name};
use dg_numbers::u16_at;
use std::alloc::AllocError;

/// The offset of the first name in a directory.
pub const NAMES_OFFSET: usize = 28;

/// Why a directory was not taken.
#[derive(Clone, Copy)]
pub enum DirectoryFault {
    /// It breaks a rule.
    Broken,
    /// Memory ran out.
    Memory,
}

impl From<AllocError> for DirectoryFault {
    ghost from_gives = { λ _ fault. fault ≡ Memory };

    fn from(_failure: AllocError) -> DirectoryFault {
        DirectoryFault::Memory
    }
}

// The offset behind the name at the offset, where it is within the bytes.
fn name_end(bytes: &[u8], at: usize) -> Option<usize>
    requires { at ≤ length bytes.now }
    ensures end { result ≡ option_map (λ n. n.1) (name_at bytes.now at) }
    ensures behind { IfSome result (λ end. at + 2 ≤ end) }
    ensures within { IfSome result (λ end. end ≤ length bytes.now) }
{
    if bytes.len() - at < 2 {
        return None;
    }
    let len = u16_at(bytes, at) as usize;
    if bytes.len() - at - 2 < len {
        return None;
    }
    Some(at + 2 + len)
}

// Adds the name at the offset to those that are there. Answers the offset behind it.
fn read_name(bytes: &[u8], at: usize, names: &mut Names) -> Result<usize, DirectoryFault>
    requires within { at ≤ length bytes.now }
    requires room { length names.old < NAMES_MAX }
    ensures taken { IfOk result (λ end. TakesName bytes.now at names.old names.new end) }
    ensures within { IfOk result (λ end. end ≤ length bytes.now) }
    ensures broken { IsErrOf result DirectoryFault.Broken → (n : List ℕ × ℕ) → name_at bytes.now at ≡ Some n → is_fresh names.old n.0 ≡ false }
{
    let Some(end) = name_end(bytes, at) else {
        return Err(DirectoryFault::Broken);
    };
    let text = &bytes[at + 2..end];
    if !is_name(text) {
        return Err(DirectoryFault::Broken);
    }
    let is_new = names.insert(text)?;
    if !is_new {
        return Err(DirectoryFault::Broken);
    }
    Ok(end)
}

/// Adds so many names, which stand in the directory one behind another, to those that are there. Answers
/// the offset behind them. `DirectoryFault::Broken` where one of them is none or no new one,
/// `DirectoryFault::Memory` for want of memory: then some of them may be added.
pub fn read_names(bytes: &[u8], count: u32, names: &mut Names) -> Result<usize, DirectoryFault>
    requires within { 28 ≤ length bytes.now }
    requires room { length names.old + count ≤ NAMES_MAX }
    ensures taken { IfOk result (λ end. TakesNames bytes.now count names.old names.new end) }
    ensures within { IfOk result (λ end. end ≤ length bytes.now) }
    ensures broken { IsErrOf result DirectoryFault.Broken → (t : List (List ℕ) × ℕ) → names_at count bytes.now 28 ≡ Some t → are_new names.old t.0 ≡ false }
{
    let mut at = NAMES_OFFSET;
    for _ in 0..count {
        at = read_name(bytes, at, names)?;
    }
    Ok(at)
}
