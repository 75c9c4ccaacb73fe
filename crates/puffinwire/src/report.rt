// What a call tells its caller beside the numbers of the sheet. `embed/include/puffinwire.h` declares it for C, `embed/rust/src/lib.rs` for Rust.
#[repr(C)]
#[derive(Clone, Copy, Debug, PartialEq, Eq)]
pub struct Report {
    pub used: usize,
    pub taken: usize,
    pub byte: usize,
    pub count: usize,
    pub standing: u64,
    pub support: u64,
    pub number: u32,
    pub layer: u32,
    pub transitions: u32,
    pub question: u32,
}
