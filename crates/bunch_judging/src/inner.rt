// Where sums are known to fit.
pub mod displacement;
pub mod results;
