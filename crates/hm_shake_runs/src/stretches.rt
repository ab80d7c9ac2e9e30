//! Stretches of ticks that are alike.

ghost use Rattle.std.specs.Prelude.{◌≡◌, ◌≤◌, [], ◌∷◌, IfOk, map};
ghost use Rattle.std.specs.List.{All};
ghost use Rattle.hm_sched.specs.Schedule.{most_irq, most_ticks, total};
ghost use Rattle.hm_shake_runs.specs.Heads.{bare};
ghost use Rattle.hm_shake_runs.specs.Stretches.{IsStretch, interrupts_in, irq_words, steps, stretch_line, with_stretches};

use crate::head::Head;
use hm_base::OutOfMemory;
use hm_sched::{SchedErr, Schedule};
use std::alloc::Global;

/// So many ticks of so many letters O each, 1 to 4; an interrupt may arrive in each of them.
#[derive(Clone, Copy)]
pub struct Stretch {
    pub count: u32,
    pub letters: u8,
    pub irq: Option<u8>,
}

/// The eight words of an interrupt, or of none.
fn irq_words(irq: Option<u8>) -> [u32; 8]
    ensures value { result ≡ irq_words irq }
{
    let mut words = [0; 8];
    if let Some(n) = irq {
        words[usize::from(n) / 32] = 1 << (u32::from(n) % 32);
    }
    words
}

/// So many letters O.
fn steps(letters: u8) -> &'static [u8]
    requires some { 1 ≤ letters }
    requires few { letters ≤ 4 }
    ensures value { result.now ≡ steps letters }
{
    match letters {
        1 => b"O",
        2 => b"OO",
        3 => b"OOO",
        _ => b"OOOO",
    }
}

/// Adds a stretch that there is room for to a schedule.
fn add(s: &mut Schedule, stretch: &Stretch) -> Result<(), OutOfMemory>
    requires sound { IsStretch (most_irq s.old.format) stretch.now }
    requires room { total (with_stretches (stretch.now ∷ []) s.old).lines ≤ most_ticks }
    ensures added { IfOk result (λ _. s.new ≡ with_stretches (stretch.now ∷ []) s.old) }
{
    match s.add(
        stretch.count,
        steps(stretch.letters),
        &irq_words(stretch.irq),
    ) {
        Ok(()) => Ok(()),
        Err(SchedErr::OutOfMemory) => Err(OutOfMemory),
        Err(_) => unreachable!(),
    }
}

/// The schedule of stretches: a line for each.
pub fn schedule_of(
    alloc: Global,
    head: &Head,
    stretches: &[Stretch],
) -> Result<Schedule, OutOfMemory>
    requires sound { All (IsStretch (most_irq head.now.format)) stretches.now }
    requires room { total (map stretch_line stretches.now) ≤ most_ticks }
    ensures value { IfOk result (λ s. s ≡ with_stretches stretches.now (bare head.now)) }
{
    let mut s = head.begin(alloc);
    for stretch in stretches {
        add(&mut s, stretch)?;
    }
    Ok(s)
}

/// How many ticks stretches have.
pub fn ticks_in(stretches: &[Stretch]) -> u32
    requires few { total (map stretch_line stretches.now) ≤ most_ticks }
    ensures sum { result ≡ total (map stretch_line stretches.now) }
{
    let mut ticks = 0;
    for stretch in stretches {
        ticks += stretch.count;
    }
    ticks
}

/// In how many stretches an interrupt arrives.
pub fn interrupts_in(stretches: &[Stretch]) -> usize
    ensures value { result ≡ interrupts_in stretches.now }
{
    let mut count = 0;
    for stretch in stretches {
        if stretch.irq.is_some() {
            count += 1;
        }
    }
    count
}
