//! The items that leave the value of an expression in a register.

ghost use Rattle.std.specs.Prelude.{◌≡◌, ◌+◌, ◌≤◌, ◌++◌, ◌∷◌, [], length, map, IfOk};
ghost use Rattle.hm_kernel_lang.specs.declared.machine.Item.TheVariants.{Plain};
ghost use Rattle.hm_kernel_lang.specs.declared.machine.Kind.TheVariants.{Offset, Splat, Load};
ghost use Rattle.hm_kernel_lang.specs.Code.{constant_code, expr_code};
ghost use Rattle.hm_kernel_lang.specs.Language.{address, need};
ghost use Rattle.hm_kernel_lang.specs.Texts.{IsOver};

use hm_base::OutOfMemory;
use hm_kernel_lang::machine::{Item, Kind};
use hm_kernel_lang::text::{Expr, Text};

/// Appends the load of register q with the elements that are next of the array at an address.
fn add_name(out: &mut Vec<Item>, addr: u32, q: u32) -> Result<(), OutOfMemory>
    ensures items { IfOk result (λ _. out.new.items ≡ out.old.items ++ map Plain (constant_code addr (Offset ∷ Load q ∷ []))) }
{
    let load = [
        Item::Plain(Kind::Low(addr % 65536)),
        Item::Plain(Kind::High(addr / 65536)),
        Item::Plain(Kind::Offset),
        Item::Plain(Kind::Load(q)),
    ];
    out.extend_from_slice(&load)?;
    Ok(())
}

/// Appends the items that put a number into each element of register q.
fn add_number(out: &mut Vec<Item>, number: u32, q: u32) -> Result<(), OutOfMemory>
    ensures items { IfOk result (λ _. out.new.items ≡ out.old.items ++ map Plain (constant_code number (Splat q ∷ []))) }
{
    let constant = [
        Item::Plain(Kind::Low(number % 65536)),
        Item::Plain(Kind::High(number / 65536)),
        Item::Plain(Kind::Splat(q)),
    ];
    out.extend_from_slice(&constant)?;
    Ok(())
}

/// Appends the items that leave the value of an expression of a text in register q, for the elements that are next. They change the registers
/// above it.
pub fn add_expression(out: &mut Vec<Item>, text: &Text, e: &Expr, q: u32) -> Result<(), OutOfMemory>
    requires over { IsOver text.now.element (length text.now.arrays.items) e.now }
    requires registers { q + need e.now ≤ 8 }
    ensures items { IfOk result (λ _. out.new.items ≡ out.old.items ++ map Plain (expr_code (address text.now.arrays.items) e.now q)) }
{
    match e {
        Expr::Name(i) => add_name(out, text.arrays[*i as usize].addr, q),
        Expr::Number(number) => add_number(out, *number, q),
        Expr::Apply(op, left, right) => {
            add_expression(out, text, left, q)?;
            add_expression(out, text, right, q + 1)?;
            out.push(Item::Plain(Kind::Do(*op, q)))?;
            Ok(())
        }
    }
}
