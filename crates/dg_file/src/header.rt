//! The header of an index file: its gate, the magic text, the parameters, and the gate of the first
//! segment.

ghost use Rattle.std.specs.Prelude.{◌≡◌, ◌≤◌, ◌+◌, ◌++◌, ◌&&◌, ◌==◌, not, true, length, slice_index, take, IfSome};
ghost use Rattle.dg_index.specs.FileOfHistory.{function_byte, share_of};
ghost use Rattle.std.specs.Option.{option_map};
ghost use Rattle.dg_history.specs.History.{are_parameters};
ghost use Rattle.dg_index.specs.ImageText.{function_in, header_in, params_with, shared_function_in};
ghost use Rattle.dg_file.specs.Headers.{as_header, header_rest, header_rest_one, header_rest_two};

use dg_graph::{Function, SKEW_MAX};
use dg_history::{Form, Params, are_parameters};
use dg_numbers::{u16_at, u32_at};

/// The bytes of a header with the gate behind it.
pub(crate) const HEADER_BYTES: usize = 18;

/// A gate that lets what is behind it count. A gate with any other byte is closed.
pub(crate) const OPEN: u8 = 1;

/// A closed gate, as it is written.
pub(crate) const CLOSED: u8 = 0;

// The open gate of a header of the first form and of the second, and the text behind it.
const FRONT_ONE: [u8; 8] = *b"\x01DGRAPH1";

const FRONT_TWO: [u8; 8] = *b"\x01DGRAPH2";

/// What a header says.
#[derive(Clone, Copy)]
pub(crate) struct Header {
    /// The form with which the file begins.
    pub form: Form,
    pub params: Params,
}

/// The byte that stands for a function.
fn byte_of(function: Function) -> u8
    ensures { result ≡ function_byte function }
{
    match function {
        Function::Intersection => 1,
        Function::Union => 2,
        Function::Balanced => 3,
        Function::Skewed(_) => 4,
    }
}

/// The function that a byte stands for.
fn function_of(byte: u8) -> Option<Function>
    ensures { result ≡ function_in byte }
{
    match byte {
        1 => Some(Function::Intersection),
        2 => Some(Function::Union),
        3 => Some(Function::Balanced),
        _ => None,
    }
}

// The share of a function in a header of the second form: that of a skewed one, and 0 of every other.
fn share_of(function: Function) -> u16
    ensures { result ≡ share_of function }
{
    match function {
        Function::Skewed(r) => r,
        Function::Intersection | Function::Union | Function::Balanced => 0,
    }
}

// The function that a byte and a share stand for.
fn shared_function_of(byte: u8, share: u16) -> Option<Function>
    ensures { result ≡ shared_function_in byte share }
{
    if byte == 4 {
        if share <= SKEW_MAX {
            return Some(Function::Skewed(share));
        }
        return None;
    }
    if share == 0 { function_of(byte) } else { None }
}

// The parameters, where they are in their ranges.
fn params_with(l: u32, k: u32, function: Option<Function>) -> Option<Params>
    ensures params { result ≡ params_with l k function }
    ensures ranges { IfSome result (λ params. are_parameters params.l params.k ≡ true) }
{
    let params = Params {
        l,
        k,
        function: function?,
    };
    if are_parameters(params) {
        Some(params)
    } else {
        None
    }
}

// Puts the piece behind the first `at` bytes, over what is there.
fn put_at(into: &mut [u8], at: usize, piece: &[u8])
    requires { at + length piece.now ≤ length into.old }
    ensures { take (at + length piece.now) into.new ≡ take at into.old ++ piece.now }
{
    into[at..at + piece.len()].copy_from_slice(piece);
}

// The header of the first form behind its gate, with a closed gate behind it.
fn first_form(params: Params) -> [u8; 17]
    ensures { result ≡ header_rest_one params }
{
    let mut bytes = [CLOSED; 17];
    put_at(&mut bytes, 0, &FRONT_ONE[1..]);
    put_at(&mut bytes, 7, &params.l.to_be_bytes());
    put_at(&mut bytes, 11, &params.k.to_be_bytes());
    put_at(&mut bytes, 15, &[byte_of(params.function), CLOSED]);
    bytes
}

// The same of the second form, in which the arity has two bytes.
fn second_form(params: Params) -> [u8; 17]
    requires { are_parameters params.l params.k ≡ true }
    ensures { result ≡ header_rest_two params }
{
    let mut bytes = [CLOSED; 17];
    put_at(&mut bytes, 0, &FRONT_TWO[1..]);
    put_at(&mut bytes, 7, &params.l.to_be_bytes());
    put_at(&mut bytes, 11, &share_of(params.function).to_be_bytes());
    put_at(&mut bytes, 13, &(params.k as u16).to_be_bytes());
    put_at(&mut bytes, 15, &[byte_of(params.function), CLOSED]);
    bytes
}

/// The header of a new index behind its gate, with a closed gate behind it.
pub(crate) fn header_behind_gate(form: Form, params: Params) -> [u8; 17]
    requires { are_parameters params.l params.k ≡ true }
    ensures { result ≡ header_rest form params }
{
    match form {
        Form::One | Form::Upgraded(_) => first_form(params),
        Form::Two => second_form(params),
    }
}

/// Whether a file of `len` bytes ends behind its header, whose own gate is closed.
pub(crate) fn is_closed(header: &[u8], len: u64) -> bool
    requires { length header.now ≡ 18 }
    ensures { result ≡ (len == 18 && not (slice_index header.now 0 == 1)) }
{
    len == HEADER_BYTES as u64 && header[0] != OPEN
}

/// What a header says, where it is one of an index and its gate is open.
pub(crate) fn header_of(header: &[u8]) -> Option<Header>
    requires { length header.now ≡ 18 }
    ensures header { result ≡ option_map as_header (header_in header.now) }
    ensures ranges { IfSome result (λ h. are_parameters h.params.l h.params.k ≡ true) }
{
    if header[..8] == FRONT_ONE[..] {
        let function = function_of(header[16]);
        let params = params_with(u32_at(header, 8), u32_at(header, 12), function)?;
        return Some(Header {
            form: Form::One,
            params,
        });
    }
    if header[..8] == FRONT_TWO[..] {
        let function = shared_function_of(header[16], u16_at(header, 12));
        let arity = u32::from(u16_at(header, 14));
        let params = params_with(u32_at(header, 8), arity, function)?;
        return Some(Header {
            form: Form::Two,
            params,
        });
    }
    None
}
