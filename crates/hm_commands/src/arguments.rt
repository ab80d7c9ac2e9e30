//! The words of the command line.

ghost use Rattle.std.specs.Prelude.{◌≡◌, drop, IfErr, IfOk};
ghost use Rattle.std.specs.Vec.Iter.{into_iter_items};
ghost use Rattle.hm_commands.specs.declared.status.Status.TheVariants.{NoMemory};

use crate::status::Status;
use std::alloc::Global;
use std::env;
use std::env::{Args, Env};
use std::io::ErrorKind;

/// All arguments but the first, which is the program's name.
fn behind_name(alloc: Global, args: Args) -> Result<Vec<String>, Status>
    ensures words { IfOk result (λ words. words.items ≡ drop 1 (into_iter_items args)) }
    ensures wanted { IfErr result (λ e. e ≡ NoMemory) }
{
    let mut words = Vec::new(alloc);
    let mut args = args;
    let _name = args.next();
    for word in args {
        if words.push(word).is_err() {
            return Err(Status::NoMemory);
        }
    }
    Ok(words)
}

/// The words of the command line, but for the program's name. Where they cannot be had, but not for want of memory, there are none.
///
/// That these are the words that the system was given is in no clause: std's `env::args` promises nothing of what it answers.
pub fn words_of(rt: &(impl Env + AllocGlobal)) -> Result<Vec<String>, Status>
    ensures wanted { IfErr result (λ e. e ≡ NoMemory) }
{
    match env::args(rt) {
        Ok(args) => behind_name(rt.alloc(), args),
        Err(e) if e.kind() == ErrorKind::OutOfMemory => Err(Status::NoMemory),
        Err(_) => Ok(Vec::new(rt.alloc())),
    }
}
