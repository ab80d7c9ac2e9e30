//! The program that runs an image under many schedules, as its words ask for, and finds the interrupts that break it.
#![tactic(auto)]

mod command;
mod texts;
mod top;
mod words;

use hm_commands::{Status, words_of};
use hm_host::OsHost;
use hm_shake::Progress;
use std::process::ExitCode;
use top::helium_shake;

/// How many parts of the runs are told of, where there are so many.
const PARTS: u32 = 100;

/// Of so many tries to make a schedule shorter the first is told of.
const TRIES_APART: u32 = 100;

/// Tells on standard error how far a shake is.
#[derive(Drop)]
struct Reporter {
    rt: HostRuntime,
    /// The tries so far to make a schedule shorter.
    tries: u32,
}

impl Progress for Reporter {
    fn done(&mut self, runs: u32, all: u32) {
        let apart = (all / PARTS).max(1);
        if runs % apart == 0 {
            // where it can't be told, the shake goes on
            let _told = eprintln!(self.rt; "helium-shake: {runs} runs of {all}");
        }
    }

    fn shortening(&mut self, interrupts: usize) {
        if self.tries % TRIES_APART == 0 {
            let _told = eprintln!(self.rt;
                "helium-shake: a schedule of {interrupts} interrupts is made shorter"
            );
        }
        self.tries = self.tries.wrapping_add(1);
    }
}

/// Does what the words ask for.
fn status_of(rt: HostRuntime) -> Status {
    let alloc = rt.alloc();
    let words = match words_of(&rt) {
        Ok(words) => words,
        Err(status) => return status,
    };
    let Ok(log) = rt.clone() else {
        return Status::NoMemory;
    };
    helium_shake(
        alloc,
        &words,
        &mut OsHost::new(rt),
        &mut Reporter { rt: log, tries: 0 },
    )
}

/// Ends with the status of what the words ask for.
fn main(rt: HostRuntime) -> ExitCode {
    ExitCode::from(status_of(rt).code())
}
