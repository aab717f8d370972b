// The listing's lines where there is room for them, and the pieces that they are made of.
pub mod lines;
pub mod pieces;
