//! Tapes of runs, compared with machines that run once.

ghost use Rattle.std.specs.Prelude.{◌<◌};

use crate::runs::{image_of, shown};
use anyhow::{Context, Result, bail};
use hm_base::{Image, draw};
use hm_machine::{Machine, Past, Tape};
use hm_sched::{MOST_TICKS, parse};
use std::alloc::Global;

/// The order in which the ticks of a run are asked for.
#[derive(Clone, Copy)]
enum Order {
    Forwards,
    Backwards,
    /// As they are drawn, some of them more than once.
    Drawn,
}

/// An order, by its name.
fn order_of(name: &str) -> Result<Order> {
    match name {
        "forwards" => Ok(Order::Forwards),
        "backwards" => Ok(Order::Backwards),
        "drawn" => Ok(Order::Drawn),
        _ => bail!("no order"),
    }
}

/// The tick that is asked for behind k others, of so many, by a draw.
fn asked(order: Order, k: usize, count: usize, drawn: u32) -> usize
    requires one { k < count }
{
    match order {
        Order::Forwards => k,
        Order::Backwards => count - 1 - k,
        Order::Drawn => (drawn >> 8) as usize % count,
    }
}

/// What a machine shows at each tick of its run, from its start to its end.
fn filmed(alloc: Global, machine: &mut Machine) -> Result<Vec<Vec<u8>>> {
    let mut film = Vec::new(alloc);
    film.push(shown(alloc, machine)?)?;
    for _ in 0..MOST_TICKS {
        if machine.outcome().is_some() {
            return Ok(film);
        }
        let _turn = machine.tick();
        film.push(shown(alloc, machine)?)?;
    }
    Ok(film)
}

/// What the machine of an image shows at each tick of its run under a schedule.
fn film_of(alloc: Global, image: &Image, schedule: &[u8]) -> Result<Vec<Vec<u8>>> {
    let mut machine = Machine::load(alloc, image, parse(alloc, schedule)?)?;
    filmed(alloc, &mut machine)
}

/// The tape of an image under a schedule.
fn tape_of(alloc: Global, image: &Image, schedule: &[u8]) -> Result<Tape> {
    Ok(Tape::new(alloc, image, parse(alloc, schedule)?)?)
}

/// What a tape shows at a tick.
fn shown_at(alloc: Global, tape: &mut Tape, tick: u32) -> Result<Vec<u8>> {
    match tape.at(tick) {
        Ok(machine) => shown(alloc, machine),
        Err(Past { last }) => bail!("the run ends at tick {last}"),
    }
}

/// Whether a tape shows at a tick what a machine does that runs once.
fn is_alike(alloc: Global, tape: &mut Tape, film: &[Vec<u8>], tick: usize) -> Result<bool> {
    let wanted = film.get(tick).context("no tick")?;
    let tick = u32::try_from(tick).context("too many ticks")?;
    Ok(shown_at(alloc, tape, tick)? == *wanted)
}

/// How often a tape shows what a machine does that runs once, if as many ticks as it has are asked for in an order.
fn count_alike(alloc: Global, tape: &mut Tape, film: &[Vec<u8>], order: Order) -> Result<u32> {
    let mut alike = 0_u32;
    let mut drawn = 1_u32;
    for k in 0..film.len() {
        drawn = draw(drawn);
        let tick = asked(order, k, film.len(), drawn);
        alike = alike.saturating_add(is_alike(alloc, tape, film, tick)? as u32);
    }
    Ok(alike)
}

/// What a tape tells of the tick behind its last one.
fn behind(tape: &mut Tape) -> &'static str {
    match tape.at(tape.last().saturating_add(1)) {
        Ok(_) => "a tick more",
        Err(Past { .. }) => "past",
    }
}

/// How often a tape shows what a machine does that runs once, of how many ticks; the last, and what is told of the one behind it.
fn compared(alloc: Global, tape: &mut Tape, film: &[Vec<u8>], order: Order) -> Result<String> {
    let alike = count_alike(alloc, tape, film, order)?;
    let (count, last, behind) = (film.len(), tape.last(), behind(tape));
    Ok(format!(in alloc; "{alike} of {count} alike, last {last}, then {behind}")?)
}

/// What comes of a run of an image on a tape.
fn taped_image(alloc: Global, order: Order, image: &Image, schedule: &[u8]) -> Result<String> {
    let film = film_of(alloc, image, schedule)?;
    let mut tape = tape_of(alloc, image, schedule)?;
    compared(alloc, &mut tape, &film, order)
}

/// What comes of a run on a tape, whose ticks are asked for in an order.
pub fn taped(alloc: Global, order: &str, source: &[u8], schedule: &[u8]) -> Result<String> {
    let order = order_of(order)?;
    let image = image_of(alloc, source)?;
    taped_image(alloc, order, &image, schedule)
}
