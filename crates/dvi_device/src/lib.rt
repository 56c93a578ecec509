//! Devices, which take bytes piece by piece, may fail, and may report what they took: one in memory, one that fails at a chosen call, and one around
//! another that continues a file whose beginning was sent before. `write_all` sends all bytes to a device. The writer of DVI files and the job are
//! crates above this one.
#![tactic(auto)]

mod device;
mod fuse;
mod rest;
mod snapshot;

pub use device::{Device, DeviceFault, Memory, write_all};
pub use fuse::Fuse;
pub use rest::Rest;
pub use snapshot::Snapshot;
