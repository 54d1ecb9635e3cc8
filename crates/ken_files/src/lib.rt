//! Files that a run's disks are saved to, and read from again: the trait `Files`, a disk that is copied to a file, and files in memory.
#![tactic(auto)]

mod copying;
mod faults;
mod files;
mod mem_file;
mod memory;
mod paths;
mod saving;

pub use copying::copy;
pub use faults::{CopyFault, OpenFault, SaveFault};
pub use files::Files;
pub use mem_file::MemFile;
pub use memory::MemFiles;
pub use paths::path;
pub use saving::save;
