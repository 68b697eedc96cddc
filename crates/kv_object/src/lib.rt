//! The key-value object as an ordered map, and its images.
#![tactic(auto)]

mod image;
mod kv;

pub use image::ImageFault;
pub use kv::Kv;
