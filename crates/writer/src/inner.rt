// Words into a packet.
pub mod append;
pub mod push;
pub mod room;
