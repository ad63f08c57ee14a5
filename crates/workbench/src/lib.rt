// For the programs that run bench figures: frames built to order, and a row's line. No contract can say what is printed, and that
// a frame built is the one asked for is seen by running: the contracts here say nothing, and each function is safe and ends.
#![tactic(auto)]

pub mod build;
pub mod line;
