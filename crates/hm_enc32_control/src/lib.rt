//! The codes of two halfwords of branches, special registers, barriers, and moves of a lane, T16 to T19 and T21 to T23, read and
//! written: DDI0553, "T32 instruction set encoding", the 32-bit codes.
#![tactic(auto)]

mod jumps;
mod system;

pub use jumps::{
    base_of_loop_end, base_of_table, base_of_wide_branch, encode_t16, encode_t17, encode_t23,
    find_branch,
};
pub use system::{
    base_of_barrier, base_of_lane_move, base_of_read, base_of_system_move, base_of_written,
    encode_t18, encode_t19, encode_t21, encode_t22, find_system,
};
