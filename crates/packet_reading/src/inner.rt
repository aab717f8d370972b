// One bunch, over tables that have been tested.
pub mod bunch;
pub mod read;
