//! Texts within a command.
use dg_text::{KEY_BYTES_MAX, NAME_BYTES_MAX};

/// A key: the first `count` of these bytes. The others are 0.
#[derive(Clone, Copy)]
pub struct KeyText {
    pub bytes: [u8; KEY_BYTES_MAX],
    pub count: u8,
}

/// A value: the first `count` of these bytes. The others are 0.
#[derive(Clone, Copy)]
pub struct ValueText {
    pub bytes: [u8; NAME_BYTES_MAX],
    pub count: u16,
}
