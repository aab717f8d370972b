// The packet log: its version byte, and then one record after another.
#![tactic(auto)]

pub mod inner;
pub mod reading;

// Why a log isn't read: it has another version, or none.
#[derive(Clone, Copy, Debug, PartialEq, Eq)]
pub enum VersionError {
    Other(u8),
    Missing,
}

// The six bytes before a packet.
#[derive(Clone, Copy)]
pub struct Head {
    pub length: u64,
    pub id: i32,
}

// A packet with its first byte, its length and the next record's place.
#[derive(Clone, Copy)]
pub struct Record {
    pub id: i32,
    pub start: u64,
    pub length: u64,
    pub next: u64,
}

// A record that is cut, with its start.
#[derive(Clone, Copy, Debug, PartialEq, Eq)]
pub struct Cut {
    pub at: u64,
}
