//! What the register is given of the machine: files on its disk, and its network.
#![tactic(auto)]

mod disk_files;
mod network;
mod opening;

pub use disk_files::DiskFiles;
pub use network::{MachineNetwork, MachineReadHalf, MachineWriteHalf};
