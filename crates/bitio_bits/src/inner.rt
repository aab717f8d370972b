pub mod arithmetic;
pub mod masks;
pub mod signed;
