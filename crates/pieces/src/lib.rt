// Laying one logged write over an image, whole or by the chunks that a row keeps, and what document
// 01 asks of a row: its bits, its filling and its set bits. Each function meets a definition of
// specs/, which renders pmem_async_spec_t.rs or document 01. The log itself is in `desk`.
// Nothing is assumed.

#![tactic(auto)]

// A write as a call is handed it: its bytes, and the address of the first.
#[derive(Clone, Copy)]
pub struct Write<'a> {
    pub addr: usize,
    pub bytes: &'a [u8],
}

pub mod lay;
pub mod points;
pub mod rows;
