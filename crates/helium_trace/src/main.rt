//! The program that shows a run tick by tick, as its words ask for.
#![tactic(auto)]

mod top;
mod words;

use hm_commands::{Status, words_of};
use hm_host::OsHost;
use std::process::ExitCode;
use top::helium_trace;

fn main(rt: HostRuntime) -> ExitCode {
    let alloc = rt.alloc();
    let status = match words_of(&rt) {
        Ok(words) => helium_trace(alloc, &words, &mut OsHost::new(rt)),
        Err(status) => status,
    };
    ExitCode::from(status.code())
}
