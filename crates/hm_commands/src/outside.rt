//! The host's calls of a run: the reads in order, then the write, then the print.

ghost use Rattle.std.specs.Prelude.{◌≡◌, ◌≤◌, Some, Err, map, option_map, length, vec_len, IfOk, All};
ghost use Rattle.hm_host.specs.Host.{FileMap, Stays, Counts, longest};
ghost use Rattle.hm_work.specs.Work.{output_pair};
ghost use Rattle.hm_commands.specs.Calls.{MakesAll, MakesCalls, answer_way, read_calls, write_calls, print_calls};
ghost use Rattle.hm_commands.specs.Effect.{ReadsAll, WritesFile, PrintsText};

use hm_host::{Host, HostErr};
use hm_work::Output;
use std::alloc::Global;

/// The contents of these files, in order.
pub fn read_all<H: Host>(
    alloc: Global,
    names: &[&str],
    host: &mut H,
) -> Result<Vec<Vec<u8>>, HostErr>
    ensures answer { ReadsAll (H.state host.old).files (map (λ name. name.now) names.now) (λ contents. map (λ bytes. bytes.items) contents.items) result }
    ensures each { IfOk result (λ contents. vec_len contents ≡ length names.now) }
    ensures short { IfOk result (λ contents. All (λ bytes. length bytes.items ≤ longest) contents.items) }
    ensures files { Stays (H.state host.old).files (H.state host.new).files }
    ensures printed { Stays (H.state host.old).printed (H.state host.new).printed }
    ensures calls { (F : FileMap) → (H.state host.old).files ≡ Some F
        → MakesCalls (read_calls F (map (λ name. name.now) names.now)) (H.state host.old).calls (H.state host.new).calls (answer_way result) }
    ensures count { Counts (H.state host.old).faults (H.state host.new).faults result }
{
    let mut contents = Vec::new(alloc);
    for name in names {
        match host.read(alloc, name) {
            Ok(bytes) => {
                if contents.push(bytes).is_err() {
                    return Err(HostErr::OutOfMemory);
                }
            }
            Err(e) => return Err(e),
        }
    }
    Ok(contents)
}

/// Writes the file, where there is one.
pub fn write_file<H: Host>(
    alloc: Global,
    file: &Option<Output<'_>>,
    host: &mut H,
) -> Result<(), HostErr>
    ensures files { WritesFile (option_map output_pair file.now) (H.state host.old) (H.state host.new) result }
    ensures printed { Stays (H.state host.old).printed (H.state host.new).printed }
    ensures calls { MakesCalls (write_calls (option_map output_pair file.now)) (H.state host.old).calls (H.state host.new).calls (answer_way result) }
    ensures count { Counts (H.state host.old).faults (H.state host.new).faults result }
{
    match file {
        Some(file) => host.write(alloc, file.name, &file.bytes),
        None => Ok(()),
    }
}

/// Prints the text, where there is one.
pub fn print_text<H: Host>(
    alloc: Global,
    text: &Option<Vec<u8>>,
    host: &mut H,
) -> Result<(), HostErr>
    ensures printed { PrintsText (option_map (λ text. text.items) text.now) (H.state host.old) (H.state host.new) result }
    ensures files { Stays (H.state host.old).files (H.state host.new).files }
    ensures calls { MakesCalls (print_calls (option_map (λ text. text.items) text.now)) (H.state host.old).calls (H.state host.new).calls (answer_way result) }
    ensures spent { result ≡ Err HostErr.OutOfMemory
        → MakesAll (print_calls (option_map (λ text. text.items) text.now)) (H.state host.old).calls (H.state host.new).calls }
    ensures count { Counts (H.state host.old).faults (H.state host.new).faults result }
{
    match text {
        Some(text) => host.print(alloc, text),
        None => Ok(()),
    }
}
