//! Judge of the image that a report prints: whether it is that of the journal after the run.
#![tactic(auto)]

mod alike;
mod image;

pub use image::image_fits;
