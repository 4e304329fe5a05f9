//! The disk: three files, and what a stop at any moment may leave of them.
#![tactic(auto)]

mod disk;
mod fail_list;
mod failed;
mod file;
mod file_disk;
mod log;
mod mem_disk;
mod slots;
mod stop;

pub use disk::Disk;
pub use fail_list::FailList;
pub use failed::Failed;
pub use file::File;
pub use file_disk::{AtFault, FileDisk, LockFile};
pub use mem_disk::MemDisk;
