//! Special registers, and scalar instructions on vector registers.

ghost use Rattle.std.specs.Prelude.{◌≡◌, ℕ, ◌<◌, ◌≤◌, ◌^◌};
ghost use Rattle.hm_isa.specs.Words.{bit_is_set};
ghost use Rattle.hm_isa.specs.declared.system.WrittenName.{WrittenName};
ghost use Rattle.hm_thumb.specs.SystemRows.{apsr, flag_at, selected, special, system_move, t18, t21, t22, with_flags, with_main, with_process, with_special};

use hm_base::Place;
use hm_isa::{LaneMoveName, ReadName, SystemMoveName, T18, T21, T22, WrittenName};
use hm_regs::Regs;

/// A flag as bit `k`.
fn flag_at(k: u32, flag: bool) -> u32
    requires { k < 32 }
    ensures value { result ≡ flag_at k flag }
    ensures below { result ≤ 2 ^ k }
{
    if flag { 1 << k } else { 0 }
}

/// APSR: N, Z, C, V and Q in bits 31 to 27.
fn apsr(regs: &Regs) -> u32
    ensures value { result ≡ apsr regs.now }
{
    flag_at(31, regs.n)
        + flag_at(30, regs.z)
        + flag_at(29, regs.c)
        + flag_at(28, regs.v)
        + flag_at(27, regs.q)
}

/// A special register.
fn special(name: ReadName, regs: &Regs) -> u32
    ensures value { result ≡ special name regs.now }
{
    match name {
        ReadName::Apsr => apsr(regs),
        ReadName::Ipsr => regs.ipsr as u32,
        ReadName::Msp => regs.main_pointer(),
        ReadName::Psp => regs.process_pointer(),
        ReadName::Primask => flag_at(0, regs.primask),
        ReadName::Basepri => regs.basepri as u32,
        ReadName::Control => flag_at(1, regs.uses_process()) + flag_at(2, regs.fpca),
    }
}

/// Whether bit `k` of a word is set.
fn bit_is_set(x: u32, k: u32) -> bool
    requires { k < 32 }
    ensures value { result ≡ bit_is_set x k }
{
    (x >> k) % 2 == 1
}

/// Writes the four flags.
fn set_flags(x: u32, regs: &mut Regs)
    ensures regs { regs.new ≡ with_flags x regs.old }
{
    regs.n = bit_is_set(x, 31);
    regs.z = bit_is_set(x, 30);
    regs.c = bit_is_set(x, 29);
    regs.v = bit_is_set(x, 28);
}

/// Writes the main stack pointer.
fn set_main(x: u32, regs: &mut Regs)
    ensures regs { regs.new ≡ with_main x regs.old }
{
    if regs.uses_process() {
        regs.other = x - x % 4;
    } else {
        regs.set(Place::R(13), x);
    }
}

/// Writes the process stack pointer.
fn set_process(x: u32, regs: &mut Regs)
    ensures regs { regs.new ≡ with_process x regs.old }
{
    if regs.uses_process() {
        regs.set(Place::R(13), x);
    } else {
        regs.other = x - x % 4;
    }
}

/// A thread chooses its stack: where it is another one, the two pointers change places.
fn select(process: bool, regs: &mut Regs)
    ensures regs { regs.new ≡ selected process regs.old }
{
    if process == regs.spsel {
        return;
    }
    let sp = regs.sp;
    regs.sp = regs.other;
    regs.other = sp;
    regs.spsel = process;
}

/// Writes CONTROL: a thread chooses its stack, and a handler changes nothing.
fn set_control(x: u32, regs: &mut Regs)
    ensures regs { regs.new ≡ with_special WrittenName.Control x regs.old }
{
    if regs.ipsr != 0 {
        return;
    }
    select(bit_is_set(x, 1), regs);
}

/// Writes a special register.
fn set_special(name: WrittenName, x: u32, regs: &mut Regs)
    ensures regs { regs.new ≡ with_special name x regs.old }
{
    match name {
        WrittenName::Apsr => {
            set_flags(x, regs);
            regs.q = bit_is_set(x, 27);
        }
        WrittenName::Msp => set_main(x, regs),
        WrittenName::Psp => set_process(x, regs),
        WrittenName::Primask => regs.primask = bit_is_set(x, 0),
        WrittenName::Basepri => regs.basepri = ((x - x % 32) % 256) as u8,
        WrittenName::Control => set_control(x, regs),
    }
}

/// `mrs`, `msr`
pub fn move_special(i: &T18, regs: &mut Regs)
    ensures regs { regs.new ≡ t18 i.now regs.old }
{
    match i {
        T18::Read(i) => {
            let x = special(i.name, regs);
            regs.set(Place::R(i.d.get() as u8), x);
        }
        T18::Write(i) => {
            let x = regs.get(Place::R(i.n.get() as u8));
            set_special(i.name, x, regs);
        }
    }
}

/// `vmrs`, `vmsr`
pub fn move_system(i: &T21, regs: &mut Regs)
    ensures regs { regs.new ≡ t21 i.now regs.old }
{
    let t = i.t.get();
    if t == 15 {
        return set_flags(regs.fpscr, regs);
    }
    let core = Place::R(t as u8);
    let x = regs.get(core);
    match i.name {
        SystemMoveName::ReadFpscr => regs.set(core, regs.fpscr),
        SystemMoveName::ReadVpr => regs.set(core, regs.vpr),
        SystemMoveName::ReadP0 => regs.set(core, regs.vpr % 0x1_0000),
        SystemMoveName::WriteFpscr => {
            regs.fpscr = x / 0x800_0000 * 0x800_0000 + regs.fpscr % 0x800_0000;
        }
        SystemMoveName::WriteVpr => {
            regs.vpr = regs.vpr / 0x100_0000 * 0x100_0000 + x % 0x100_0000;
        }
        SystemMoveName::WriteP0 => {
            regs.vpr = regs.vpr / 0x1_0000 * 0x1_0000 + x % 0x1_0000;
        }
    }
}

/// `vmov.32` of a lane
pub fn move_lane(i: &T22, regs: &mut Regs)
    ensures regs { regs.new ≡ t22 i.now regs.old }
{
    let lane = Place::QWord((4 * i.q.get() + i.x.get()) as u8);
    let core = Place::R(i.t.get() as u8);
    match i.name {
        LaneMoveName::ToLane => {
            let x = regs.get(core);
            regs.set(lane, x);
        }
        LaneMoveName::FromLane => {
            let x = regs.get(lane);
            regs.set(core, x);
        }
    }
}
