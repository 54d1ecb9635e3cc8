//! Files of the system as disks: the trusted edge behind `ken_files`.
#![tactic(auto)]

mod file_disk;
mod host_files;
#[cfg(test)]
mod tests;

pub use file_disk::FileDisk;
pub use host_files::HostFiles;
