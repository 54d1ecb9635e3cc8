//! The image of a heap on a disk: pages that are written one at a time, and made safe by a sync.
#![tactic(auto)]

mod faults;
mod format;
mod image;

pub use faults::ImageFault;
pub use image::Image;
