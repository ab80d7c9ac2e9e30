//! What a command comes to, once its files are read: what is to be written and printed, or a refusal.

ghost use Rattle.std.specs.Prelude.{◌≡◌, ◌++◌, IfOk, None, Some, true, codes, decimal};
ghost use Rattle.hm_work.specs.Work.{asm_kind_text, image_text, kind_text, schedule_text, journal_refusal_text, kernel_kind_text, kernel_text, script_text};
ghost use Rattle.hm_work.specs.Work.{finish_of, finishes, source_text, refusal_text};

use hm_asm::{AsmErr, AsmKind};
use hm_base::{ImageErr, OutOfMemory};
use hm_debug::ScriptErr;
use hm_journal::JournalErr;
use hm_kernel::{KernelErr, KernelKind};
use hm_machine::Past;
use hm_sched::{LineKind, SchedErr};
use hm_text_base::{decimal, hex8, separator, text};
use std::alloc::Global;

/// A file to write.
#[derive(Drop)]
pub struct Output<'a> {
    pub name: &'a str,
    pub bytes: Vec<u8>,
}

/// What is left to do: to write the file and to print the text. `done` says whether what was asked came about.
#[derive(Drop)]
pub struct Finish<'a> {
    pub done: bool,
    pub file: Option<Output<'a>>,
    pub text: Option<Vec<u8>>,
}

impl<'a> Finish<'a> {
    /// What was asked came about, and this text is to be printed.
    pub fn printed(text: Vec<u8>) -> Self
        ensures value { finish_of result ≡ finishes true None (Some text.items) }
    {
        Finish {
            done: true,
            file: None,
            text: Some(text),
        }
    }

    /// What was asked came about, and these bytes are to be written to the file with a name.
    pub fn written(name: &'a str, bytes: Vec<u8>) -> Self
        ensures value { finish_of result ≡ finishes true (Some (name.now, bytes.items)) None }
    {
        Finish {
            done: true,
            file: Some(Output { name, bytes }),
            text: None,
        }
    }
}

/// Why a command is refused.
#[derive(Clone, Copy)]
pub enum Refusal {
    /// A file has more bytes than are read.
    FileTooLarge,
    /// The bytes of a file are no image.
    Image(ImageErr),
    /// The bytes of a file are no schedule.
    Schedule(SchedErr),
    /// The bytes of a file are no source.
    Source(AsmErr),
    /// The bytes of a file are no script.
    Script(ScriptErr),
    /// The bytes of a file are no journal, or not the run's, or a journal would have too many checkpoints.
    Journal(JournalErr),
    /// The bytes of a file are no text of the array language.
    Kernel(KernelErr),
    /// The run begins no more than so many ticks.
    Past { last: u32 },
    /// The word at 4 of an image, whose bit 0 is not set.
    Reset { value: u32 },
}

/// Adds words, and a number behind them.
fn add_numbered(
    alloc: Global,
    out: &mut Vec<u8>,
    words: &[u8],
    number: u32,
) -> Result<(), OutOfMemory>
    ensures { IfOk result (λ _. out.new.items ≡ out.old.items ++ words.now ++ decimal number) }
{
    text(out, words)?;
    decimal(alloc, out, u64::from(number))
}

/// Adds what is wrong with an image, behind its word. Want of memory is no such thing, and adds the word alone.
fn add_image_text(alloc: Global, out: &mut Vec<u8>, e: ImageErr) -> Result<(), OutOfMemory>
    ensures { IfOk result (λ _. out.new.items ≡ image_text e (out.old.items ++ codes "image ")) }
{
    text(out, b"image ")?;
    match e {
        ImageErr::Short => text(out, b"short"),
        ImageErr::Long => text(out, b"long"),
        ImageErr::Truncated { at } => add_numbered(alloc, out, b"truncated ", at),
        ImageErr::Class => text(out, b"class"),
        ImageErr::Order => text(out, b"order"),
        ImageErr::Header => text(out, b"header"),
        ImageErr::Kind => text(out, b"kind"),
        ImageErr::Machine => text(out, b"machine"),
        ImageErr::TooMany => text(out, b"too many"),
        ImageErr::Segment { index } => add_numbered(alloc, out, b"segment ", index),
        ImageErr::Hex { line } => add_numbered(alloc, out, b"hex ", line),
        ImageErr::OutOfMemory => Ok(()),
    }
}

/// The word for what is bad in a line of a schedule.
fn kind_text(kind: LineKind) -> &'static [u8]
    ensures { result.now ≡ kind_text kind }
{
    match kind {
        LineKind::Header => b"header",
        LineKind::Entries => b"entries",
        LineKind::Region => b"region",
        LineKind::Floor => b"floor",
        LineKind::Process => b"process",
        LineKind::Count => b"count",
        LineKind::Steps => b"steps",
        LineKind::Irq => b"irq",
        LineKind::Newline => b"newline",
    }
}

/// Adds what is wrong with a schedule, behind its word. Want of memory is no such thing, and adds the word alone.
fn add_schedule_text(alloc: Global, out: &mut Vec<u8>, e: SchedErr) -> Result<(), OutOfMemory>
    ensures { IfOk result (λ _. out.new.items ≡ schedule_text e (out.old.items ++ codes "schedule ")) }
{
    text(out, b"schedule ")?;
    match e {
        SchedErr::Line { line, kind } => {
            add_numbered(alloc, out, b"line ", line)?;
            separator(out)?;
            text(out, kind_text(kind))
        }
        SchedErr::TooManyTicks { line } => add_numbered(alloc, out, b"too many ticks ", line),
        SchedErr::OutOfMemory => Ok(()),
    }
}

/// The word for what is bad in a line of a source.
fn asm_kind_text(kind: AsmKind) -> &'static [u8]
    ensures { result.now ≡ asm_kind_text kind }
{
    match kind {
        AsmKind::Syntax => b"syntax",
        AsmKind::Row => b"row",
        AsmKind::Missing => b"missing",
        AsmKind::Double => b"double",
        AsmKind::Offset => b"offset",
        AsmKind::Place => b"place",
    }
}

/// Adds what is wrong with a source, behind its word. Want of memory is no such thing, and adds the word alone.
fn add_source_text(alloc: Global, out: &mut Vec<u8>, e: AsmErr) -> Result<(), OutOfMemory>
    ensures { IfOk result (λ _. out.new.items ≡ source_text e (out.old.items ++ codes "source ")) }
{
    text(out, b"source ")?;
    match e {
        AsmErr::Line { line, column, kind } => {
            add_numbered(alloc, out, b"line ", line)?;
            add_numbered(alloc, out, b" column ", column)?;
            separator(out)?;
            text(out, asm_kind_text(kind))
        }
        AsmErr::OutOfMemory => Ok(()),
    }
}

/// Adds what is wrong with a script, behind its word. Want of memory is no such thing, and adds the word alone.
fn add_script_text(alloc: Global, out: &mut Vec<u8>, e: ScriptErr) -> Result<(), OutOfMemory>
    ensures { IfOk result (λ _. out.new.items ≡ script_text e (out.old.items ++ codes "script ")) }
{
    text(out, b"script ")?;
    match e {
        ScriptErr::Line { line } => add_numbered(alloc, out, b"line ", line),
        ScriptErr::TooManyLines => text(out, b"too many lines"),
        ScriptErr::OutOfMemory => Ok(()),
    }
}

/// Adds what is wrong with a journal, behind its word. Want of memory is no such thing, and adds the word alone.
fn add_journal_text(alloc: Global, out: &mut Vec<u8>, e: JournalErr) -> Result<(), OutOfMemory>
    ensures { IfOk result (λ _. out.new.items ≡ journal_refusal_text e (out.old.items ++ codes "journal ")) }
{
    text(out, b"journal ")?;
    match e {
        JournalErr::TooMany => text(out, b"too many"),
        JournalErr::Json => text(out, b"json"),
        JournalErr::Shape => text(out, b"shape"),
        JournalErr::Format => text(out, b"format"),
        JournalErr::Differs { tick } => add_numbered(alloc, out, b"differs ", tick),
        JournalErr::OutOfMemory => Ok(()),
    }
}

/// The word for what is bad in a line of the array language.
fn kernel_kind_text(kind: KernelKind) -> &'static [u8]
    ensures { result.now ≡ kernel_kind_text kind }
{
    match kind {
        KernelKind::Syntax => b"syntax",
        KernelKind::Large => b"large",
        KernelKind::Name => b"name",
        KernelKind::Range => b"range",
        KernelKind::Overlap => b"overlap",
        KernelKind::Deep => b"deep",
    }
}

/// Adds what is wrong with a text of the array language, behind its word. Want of memory is no such thing, and adds the word alone.
fn add_kernel_text(alloc: Global, out: &mut Vec<u8>, e: KernelErr) -> Result<(), OutOfMemory>
    ensures { IfOk result (λ _. out.new.items ≡ kernel_text e (out.old.items ++ codes "kernel ")) }
{
    text(out, b"kernel ")?;
    match e {
        KernelErr::Line { line, kind } => {
            add_numbered(alloc, out, b"line ", line)?;
            separator(out)?;
            text(out, kernel_kind_text(kind))
        }
        KernelErr::OutOfMemory => Ok(()),
    }
}

impl Refusal {
    /// Adds what the line of a refusal says.
    pub fn add_text(self, alloc: Global, out: &mut Vec<u8>) -> Result<(), OutOfMemory>
        ensures { IfOk result (λ _. out.new.items ≡ refusal_text self out.old.items) }
    {
        match self {
            Refusal::FileTooLarge => text(out, b"file too large"),
            Refusal::Image(e) => add_image_text(alloc, out, e),
            Refusal::Schedule(e) => add_schedule_text(alloc, out, e),
            Refusal::Source(e) => add_source_text(alloc, out, e),
            Refusal::Script(e) => add_script_text(alloc, out, e),
            Refusal::Journal(e) => add_journal_text(alloc, out, e),
            Refusal::Kernel(e) => add_kernel_text(alloc, out, e),
            Refusal::Past { last } => add_numbered(alloc, out, b"replay past ", last),
            Refusal::Reset { value } => {
                text(out, b"image reset ")?;
                hex8(out, value)
            }
        }
    }
}

/// Why a command comes to no finish.
#[derive(Clone, Copy)]
pub enum Stop {
    Refused(Refusal),
    NoMemory,
}

impl From<OutOfMemory> for Stop {
    ghost use Rattle.hm_work.specs.declared.work.Stop.TheVariants.{NoMemory};

    ghost from_gives = { λ _ e. e ≡ NoMemory };

    fn from(_: OutOfMemory) -> Stop {
        Stop::NoMemory
    }
}

impl From<ImageErr> for Stop {
    ghost use Rattle.hm_work.specs.Work.{image_stop};

    ghost from_gives = { λ e stop. stop ≡ image_stop e };

    fn from(e: ImageErr) -> Stop {
        match e {
            ImageErr::OutOfMemory => Stop::NoMemory,
            e => Stop::Refused(Refusal::Image(e)),
        }
    }
}

impl From<SchedErr> for Stop {
    ghost use Rattle.hm_work.specs.Run.{schedule_stop};

    ghost from_gives = { λ e stop. stop ≡ schedule_stop e };

    fn from(e: SchedErr) -> Stop {
        match e {
            SchedErr::OutOfMemory => Stop::NoMemory,
            e => Stop::Refused(Refusal::Schedule(e)),
        }
    }
}

impl From<AsmErr> for Stop {
    ghost use Rattle.hm_work.specs.Work.{source_stop};

    ghost from_gives = { λ e stop. stop ≡ source_stop e };

    fn from(e: AsmErr) -> Stop {
        match e {
            AsmErr::OutOfMemory => Stop::NoMemory,
            e => Stop::Refused(Refusal::Source(e)),
        }
    }
}

impl From<ScriptErr> for Stop {
    ghost use Rattle.hm_work.specs.Work.{script_stop};

    ghost from_gives = { λ e stop. stop ≡ script_stop e };

    fn from(e: ScriptErr) -> Stop {
        match e {
            ScriptErr::OutOfMemory => Stop::NoMemory,
            e => Stop::Refused(Refusal::Script(e)),
        }
    }
}

impl From<JournalErr> for Stop {
    ghost use Rattle.hm_work.specs.Work.{journal_stop};

    ghost from_gives = { λ e stop. stop ≡ journal_stop e };

    fn from(e: JournalErr) -> Stop {
        match e {
            JournalErr::OutOfMemory => Stop::NoMemory,
            e => Stop::Refused(Refusal::Journal(e)),
        }
    }
}

impl From<KernelErr> for Stop {
    ghost use Rattle.hm_work.specs.Work.{kernel_stop};

    ghost from_gives = { λ e stop. stop ≡ kernel_stop e };

    fn from(e: KernelErr) -> Stop {
        match e {
            KernelErr::OutOfMemory => Stop::NoMemory,
            e => Stop::Refused(Refusal::Kernel(e)),
        }
    }
}

impl From<Past> for Stop {
    ghost use Rattle.hm_work.specs.Work.{past_stop};

    ghost from_gives = { λ e stop. stop ≡ past_stop e.last };

    fn from(e: Past) -> Stop {
        Stop::Refused(Refusal::Past { last: e.last })
    }
}
