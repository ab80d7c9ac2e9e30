//! The outside, as a program sees it: files to read and write, and a place to print.
#![tactic(auto)]

mod calls;
mod files;
mod host;
mod mem_host;
mod os_host;

pub use files::{FailList, Files};
pub use host::{Host, HostErr};
pub use mem_host::MemHost;
pub use os_host::OsHost;
