//! Values by numbers that mostly rise.
//!
//! Nothing here knows what the numbers or the values are.
#![tactic(auto)]

mod rising_map;
#[cfg(test)]
mod tests;

pub use rising_map::RisingMap;
