//! The checker of certificates: it names the first obligation that is not met, and takes no memory.
#![tactic(auto)]

mod checking;
mod choosing;
mod entering;
mod obligations;
mod settler;
mod shown;
mod steps;
mod walking;

pub use checking::check;
