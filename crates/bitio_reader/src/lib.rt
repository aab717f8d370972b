// A bit reader that keeps its packet's slice with its place in it. Follows `BitReader` of vrf-bitio/src/lib.rs.
#![tactic(auto)]

use bitio_window::Window;

pub mod copies;
pub mod plain;
pub mod reads;
pub mod windows;

// The Rust's fields: the window has its `start_bit`, `pos` and `bit_len`.
#[derive(Drop)]
pub struct BitReader<'a> {
    pub packet: &'a [u8],
    pub window: Window,
}
