//! Bits, places, images, registers, memory, exceptions, lanes and what beats touch, by values that were worked out by hand.

ghost use Rattle.hm_base.specs.Place.{IsPlace};

use hm_base::{Image, ImageErr, Place, Places, Span, Spans, bits, note, sign};
use hm_beat::{Clash, Touch, meet};
use hm_lane::{advance, context, finish, merge, predicate};
use hm_mem::{Access, Actor, Dev, Mem};
use hm_regs::Regs;
use hm_sys::{accept, arrive, arrive_all, candidate, priority};
use std::test::Fail;

#[test]
fn takes_words_apart(rt: HostRuntime) {
    let fields = [bits(0x1234_5678, 15, 8), bits(0x1234_5678, 31, 0)];
    assert_eq!(rt; fields, [0x56, 0x1234_5678]);
    let signed = [
        sign(0xff, 8),
        sign(0x80, 8),
        sign(0x17f, 8),
        sign(0x8000_0000, 32),
        sign(1, 1),
    ];
    assert_eq!(rt; signed, [-1, -128, 127, -0x8000_0000, -1]);
}

#[test]
fn keeps_places_in_order(rt: HostRuntime) {
    let mut places = Places::new();
    note(&mut places, Place::R(14));
    note(&mut places, Place::Mask01);
    note(&mut places, Place::P0(2));
    note(&mut places, Place::QWord(22));
    note(&mut places, Place::R(0));
    note(&mut places, Place::P0(2));
    assert_eq!(rt; places.len(), 5);
    let noted = [
        places.at(0),
        places.at(1),
        places.at(2),
        places.at(3),
        places.at(4),
    ];
    let in_order = [
        Place::R(0),
        Place::R(14),
        Place::QWord(22),
        Place::P0(2),
        Place::Mask01,
    ];
    assert_eq!(rt; noted, in_order);
    assert_eq!(rt; Place::Sticky.rank(), 55);
}

#[test]
fn puts_places_together(rt: HostRuntime) {
    let mut reads = Places::new();
    note(&mut reads, Place::Sticky);
    note(&mut reads, Place::P0(3));
    note(&mut reads, Place::R(7));
    let mut writes = Places::new();
    note(&mut writes, Place::Sticky);
    note(&mut writes, Place::P0(3));
    note(&mut writes, Place::QWord(0));
    assert_eq!(rt;
        [reads.has(Place::R(7)), reads.has(Place::R(6))],
        [true, false]
    );
    let fewer = writes.without(Place::P0(3));
    let common = [
        reads.common(&writes),
        reads.common(&fewer),
        reads.common(&fewer.without(Place::Sticky)),
    ];
    assert_eq!(rt; common, [Some(Place::P0(3)), Some(Place::Sticky), None]);
    let all = reads.join(&writes);
    assert_eq!(rt; [fewer.len(), all.len()], [2, 4]);
    assert_eq!(rt; [all.at(1), all.at(3)], [Place::QWord(0), Place::Sticky]);
}

#[test]
fn puts_segments_in_order(rt: HostRuntime) -> Result<(), Fail> {
    let alloc = rt.alloc();
    let mut image = Image::new(alloc);
    image.add(0x2000_0000, vec![in alloc; 7]?)?;
    image.add(0x100, vec![in alloc; 1, 2, 3]?)?;
    image.add(0x103, vec![in alloc; 4]?)?;
    let refused = [
        image.add(0xff, vec![in alloc; 0, 0]?),
        image.add(0xf_ffff, vec![in alloc; 0, 0]?),
        image.add(0x10, Vec::new(alloc)),
    ];
    assert_eq!(rt;
        refused,
        [Err(ImageErr::Segment { index: 3 }); 3],
        "one overlaps, one leaves flash, and one has no byte"
    );
    assert_eq!(rt; image.len(), 3);
    assert_eq!(rt; [image.segment(0).0, image.segment(1).0], [0x100, 0x103]);
    assert_eq!(rt; image.segment(0).1, [1, 2, 3].as_slice());
    assert_eq!(rt; image.segment(2).1, [7].as_slice());
    Ok(())
}

#[test]
fn keeps_what_fits(rt: HostRuntime) {
    let mut regs = Regs::start(0x2001_0000, 8);
    let first = [
        regs.get(Place::R(13)),
        regs.get(Place::R(14)),
        regs.get(Place::R(0)),
        regs.get(Place::Ltp),
    ];
    assert_eq!(rt; first, [0x2001_0000, 0xffff_ffff, 0, 4]);
    regs.set(Place::R(13), 0x2000_0007);
    regs.set(Place::R(12), 7);
    regs.set(Place::QWord(31), 9);
    regs.set(Place::P0(2), 0x1f);
    regs.set(Place::Mask23, 8);
    regs.set(Place::Carry, 0xa);
    regs.set(Place::Sticky, 1);
    let last = [
        regs.sp,
        regs.r[12],
        regs.get(Place::QWord(31)),
        regs.vpr,
        regs.fpscr,
        regs.pc,
    ];
    assert_eq!(rt; last, [0x2000_0004, 7, 9, 0x0080_0f00, 0xa804_0000, 8]);
}

#[test]
fn holds_an_image(rt: HostRuntime) -> Result<(), Fail> {
    let alloc = rt.alloc();
    let mut image = Image::new(alloc);
    image.add(0, vec![in alloc; 0x05, 0x20, 0xc0]?)?;
    image.add(0x2000_0010, vec![in alloc; 0x77, 0x88]?)?;
    let mem = Mem::new(
        alloc,
        &image,
        0x2000_1000,
        0x2000_1004,
        0x2000_f000,
        0x2000_e000,
    )?;
    let flash = [
        mem.byte(1),
        mem.byte(3),
        mem.byte(0x000f_ffff),
        mem.byte(0x0010_0000),
    ];
    assert_eq!(rt; flash, [Some(0x20), Some(0xff), Some(0xff), None]);
    let sram = [
        mem.byte(0x1fff_ffff),
        mem.byte(0x2000_0000),
        mem.byte(0x2000_0011),
        mem.byte(0x2003_ffff),
        mem.byte(0x2004_0000),
    ];
    assert_eq!(rt; sram, [None, Some(0), Some(0x88), Some(0), None]);
    let halves = [mem.half(0), mem.half(2), mem.half(0x000f_fffe)];
    assert_eq!(rt; halves, [Some(0x2005), Some(0xffc0), Some(0xffff)]);
    let no_halves = [mem.half(1), mem.half(0x0010_0000), mem.half(0x2000_0010)];
    assert_eq!(rt; no_halves, [None; 3], "an odd address, and no flash");
    assert!(rt; !mem.tainted(0x2000_0010));
    assert_eq!(rt; mem.actor(), Actor::Thread);
    assert_eq!(rt;
        *mem.dev(),
        Dev {
            csr: 0,
            rvr: 0,
            cvr: 0,
            enabled: [0; 8],
            pending: [0; 8],
            tick_pending: false,
            prio: [0; 240],
            tick_prio: 0,
            vtor: 0
        }
    );
    Ok(())
}

#[test]
fn keeps_interrupts_by_words(rt: HostRuntime) -> Result<(), Fail> {
    let alloc = rt.alloc();
    let image = Image::new(alloc);
    let mut mem = Mem::new(
        alloc,
        &image,
        0x2000_1000,
        0x2000_1004,
        0x2000_f000,
        0x2000_f000,
    )?;
    let stored = [
        mem.store(0xe000_e21c, 4, 0xffff_ffff, Access::Scalar),
        mem.store(0xe000_e104, 4, 0x8000_0001, Access::Scalar),
        mem.store(0xe000_e184, 4, 1, Access::Scalar),
        mem.store(0xe000_e4ef, 1, 0xff, Access::Scalar),
    ];
    assert_eq!(rt; stored, [Ok(()); 4]);
    assert_eq!(rt;
        mem.dev().pending,
        [0, 0, 0, 0, 0, 0, 0, 0xffff],
        "240 to 255 are no interrupts"
    );
    let loaded = [
        mem.load(0xe000_e104, 4, Access::Scalar),
        mem.load(0xe000_e4ec, 4, Access::Scalar),
    ];
    assert_eq!(rt; loaded, [Ok(0x8000_0000), Ok(0xe000_0000)]);
    assert!(rt; mem.load(0xe000_e4f0, 4, Access::Scalar).is_err());
    Ok(())
}

/// Interrupts 0, 1 and 2 are enabled, with priorities 80, 80 and 00.
fn three() -> Dev {
    let mut prio = [0; 240];
    prio[0] = 0x80;
    prio[1] = 0x80;
    Dev {
        csr: 0,
        rvr: 0,
        cvr: 0,
        enabled: [7, 0, 0, 0, 0, 0, 0, 0],
        pending: [0; 8],
        tick_pending: false,
        prio,
        tick_prio: 0x80,
        vtor: 0,
    }
}

#[test]
fn candidate_order(rt: HostRuntime) {
    let mut d = three();
    let none = candidate(&d, 256);
    arrive(&mut d, 1);
    arrive(&mut d, 0);
    let first = candidate(&d, 256);
    accept(&mut d, 16);
    arrive(&mut d, 2);
    let above = candidate(&d, 128);
    accept(&mut d, 18);
    assert_eq!(rt; [none, first, above], [None, Some(16), Some(18)]);
    let last = [candidate(&d, 128), candidate(&d, 256), candidate(&d, 0)];
    assert_eq!(rt; last, [None, Some(17), None]);
}

#[test]
fn ties_and_what_is_not_enabled(rt: HostRuntime) {
    let mut d = three();
    d.tick_pending = true;
    arrive_all(&mut d, &[0x8000_0003, 0, 0, 0, 0, 0, 0, 0]);
    assert_eq!(rt; d.pending, [0x8000_0003, 0, 0, 0, 0, 0, 0, 0]);
    let first = candidate(&d, 256);
    accept(&mut d, 15);
    let second = candidate(&d, 256);
    accept(&mut d, 16);
    accept(&mut d, 17);
    assert_eq!(rt; d.pending, [0x8000_0000, 0, 0, 0, 0, 0, 0, 0]);
    let not_enabled = candidate(&d, 256);
    d.enabled[0] = 0x8000_0000;
    let candidates = [first, second, not_enabled, candidate(&d, 256)];
    assert_eq!(rt; candidates, [Some(15), Some(16), None, Some(47)]);
    assert_eq!(rt; [priority(&d, 15), priority(&d, 18)], [0x80, 0]);
}

#[test]
fn interrupts_of_all_words(rt: HostRuntime) {
    let mut d = three();
    d.enabled = [0xffff_ffff; 8];
    d.prio[64] = 0x40;
    d.prio[200] = 0x40;
    d.prio[239] = 0x20;
    arrive(&mut d, 200);
    arrive(&mut d, 64);
    arrive(&mut d, 239);
    assert_eq!(rt; d.pending, [0, 0, 1, 0, 0, 0, 0x100, 0x8000]);
    assert_eq!(rt; priority(&d, 255), 0x20);
    let first = candidate(&d, 256);
    accept(&mut d, 255);
    let second = candidate(&d, 256);
    accept(&mut d, 80);
    let candidates = [first, second, candidate(&d, 256), candidate(&d, 64)];
    assert_eq!(rt; candidates, [Some(255), Some(80), Some(216), None]);
    accept(&mut d, 216);
    assert_eq!(rt; d.pending, [0; 8]);
    d.pending[7] = 0xffff_0000;
    assert_eq!(rt; candidate(&d, 256), None, "240 to 255 are no interrupts");
}

#[test]
fn last_interrupt_before_the_first(rt: HostRuntime) {
    let mut d = three();
    d.enabled = [3, 0, 0, 0, 0, 0, 0, 0x8000];
    d.prio[0] = 0x40;
    d.prio[1] = 0x40;
    d.prio[239] = 0x20;
    arrive(&mut d, 239);
    arrive(&mut d, 1);
    arrive(&mut d, 0);
    let first = candidate(&d, 256);
    accept(&mut d, 255);
    let candidates = [
        first,
        candidate(&d, 256),
        candidate(&d, 65),
        candidate(&d, 64),
    ];
    assert_eq!(rt; candidates, [Some(255), Some(16), Some(16), None]);
}

#[test]
fn masks_after_each_beat(rt: HostRuntime) {
    let mut regs = Regs::start(0x2001_0000, 8);
    regs.fpca = true;
    regs.vpr = 0x00cc_00f0;
    advance(&mut regs, 0);
    assert_eq!(rt; regs.vpr, 0x00cc_00ff);
    advance(&mut regs, 1);
    assert_eq!(rt; regs.vpr, 0x00c8_000f);
    advance(&mut regs, 2);
    assert_eq!(rt; regs.vpr, 0x00c8_0f0f);
    advance(&mut regs, 3);
    assert_eq!(rt; regs.vpr, 0x0088_ff0f);
}

#[test]
fn merges_what_is_active(rt: HostRuntime) {
    let mut regs = Regs::start(0x2001_0000, 8);
    context(&mut regs);
    assert_eq!(rt; regs.fpscr, 0x0004_0000);
    regs.vpr = 0x0088_ff0a;
    assert_eq!(rt; predicate(&regs), 0xff0a);
    regs.set(Place::Ltp, 1);
    regs.set(Place::R(14), 3);
    assert_eq!(rt; predicate(&regs), 0x000a);
    regs.set(Place::QWord(4), 0x1111_1111);
    finish(&mut regs, 1, 0, 0x2222_2222);
    assert_eq!(rt; regs.get(Place::QWord(4)), 0x2211_2211);
    assert_eq!(rt; merge(0x0403_0201, 0x0807_0605, 0x3000, 3), 0x0403_0605);
}

fn touch(reads: Place, writes: Place, loads: u32, stores: u32) -> Touch
    requires read { IsPlace reads }
    requires written { IsPlace writes }
{
    let mut read = Places::new();
    note(&mut read, reads);
    let mut written = Places::new();
    note(&mut written, writes);
    note(&mut written, Place::Sticky);
    let mut loaded = Spans::new();
    loaded.push(Span {
        addr: loads,
        len: 4,
    });
    let mut stored = Spans::new();
    stored.push(Span {
        addr: stores,
        len: 4,
    });
    Touch {
        reads: read,
        writes: written,
        loads: loaded,
        stores: stored,
    }
}

#[test]
fn meets_where_one_writes(rt: HostRuntime) {
    let first = touch(Place::R(0), Place::QWord(3), 0x2000_0000, 0x2000_0010);
    let beside = touch(Place::R(0), Place::QWord(4), 0x2000_0000, 0x2000_0020);
    assert_eq!(rt; meet(&first, &beside), None);
    let reader = touch(Place::QWord(3), Place::R(0), 0x2000_0000, 0x2000_0020);
    assert_eq!(rt; meet(&first, &reader), Some(Clash::Register(Place::R(0))));
    let loader = touch(Place::R(1), Place::R(2), 0x2000_0012, 0x1fff_fffe);
    assert_eq!(rt;
        meet(&first, &loader),
        Some(Clash::Memory { addr: 0x2000_0000 })
    );
    let around = touch(Place::R(1), Place::R(2), 0xffff_fffe, 0);
    assert_eq!(rt; meet(&around, &around), Some(Clash::Register(Place::R(2))));
}
