//! Which texts may be keys and which may be names.
ghost use Rattle.std.specs.Prelude.{◌≡◌, nat_lt, ◌==◌, ◌||◌};
ghost use Rattle.std.specs.List.{list_all, list_any};
ghost use Rattle.dg_text.specs.Names.{is_key, is_name};

use dg_text::{KEY_BYTES_MAX, NAME_BYTES_MAX};

/// Whether the text may be the key of an attribute: it has 1 to `KEY_BYTES_MAX` bytes, none of them
/// from 0x00 to 0x20, which is the space.
pub fn is_key(text: &[u8]) -> bool
    ensures { result ≡ is_key text.now }
{
    !text.is_empty() && text.len() <= KEY_BYTES_MAX && is_above_space(text)
}

fn is_above_space(text: &[u8]) -> bool
    ensures { result ≡ list_all (λ b. nat_lt 32 b) text.now }
{
    text.iter().all(|byte| *byte > b' ')
}

/// Whether the text may be a name, and so the value of an attribute: it has at most
/// `NAME_BYTES_MAX` bytes, none of them a line feed or a carriage return (0x0A, 0x0D).
pub fn is_name(text: &[u8]) -> bool
    ensures { result ≡ is_name text.now }
{
    text.len() <= NAME_BYTES_MAX && !has_line_end(text)
}

fn has_line_end(text: &[u8]) -> bool
    ensures { result ≡ list_any (λ b. b == 10 || b == 13) text.now }
{
    text.iter().any(|byte| *byte == b'\n' || *byte == b'\r')
}
