//! The program: it does what the words of its command line ask for.
#![tactic(auto)]

use hm_commands::{Status, helium, words_of};
use hm_host::OsHost;
use std::process::ExitCode;

fn main(rt: HostRuntime) -> ExitCode {
    let alloc = rt.alloc();
    let status = match words_of(&rt) {
        Ok(words) => helium(alloc, &words, &mut OsHost::new(rt)),
        Err(status) => status,
    };
    ExitCode::from(status.code())
}
