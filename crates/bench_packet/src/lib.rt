// A turn of the packet reader for bench/ to time. In a library of its own: beside it the loops of bench_bitio are compiled otherwise.
#![tactic(auto)]

pub mod inner;
