//! The files of the system as a store, for the programs that have a machine on them.
#![tactic(auto)]

mod beneath;
mod crashes;
mod disk;
mod file_fault;
mod file_store;
mod filling;
mod leftovers;
mod locating;
mod reading;
mod replacing;
mod system_disk;
mod told;

pub use crashes::keeps_old_or_new;
pub use disk::{Act, Disk, Found};
pub use file_fault::FileFault;
pub use file_store::FileStore;
pub use replacing::replace_file;
pub use system_disk::SystemDisk;
pub use told::{ToldDisk, ToldEnds};
