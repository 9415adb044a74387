// One line that asks for a packet.
ghost use Rattle.std.specs.Prelude.{◌≡◌, ◌<◌, ◌≤◌, ◌^◌, length, Some, IfOk};
ghost use Rattle.build_asks.specs.Asking.{ask_with};
ghost use Rattle.build_rules.specs.Asks.{answer_to, asked_in};
ghost use Rattle.build_rules.specs.Building.{octets_most};
ghost use Rattle.mibtm_build.specs.Answers.{Answers};
ghost use Rattle.tm_build.specs.Builds.{Builds};

use build_asks::{Ask, ask_in, is_passed_over};
use build_rules::{BuildFault, Item};
use std::alloc::AllocError;
use tm_build::Builder;

// Builds the packet of an ask with items.
fn build_ask(
    builder: &mut Builder<'_>,
    ask: Ask,
    items: &[Item],
    into: &mut [u8],
) -> Result<u32, BuildFault>
    requires count { ask.count < 2 ^ 14 }
    requires room { length into.old ≡ octets_most }
    ensures built { Builds result (answer_to builder.old (ask_with (Some ask) (Some items.now))) into.new }
    ensures few { IfOk result (λ octets. octets ≤ octets_most) }
    ensures kept { builder.new ≡ builder.old }
    ensures room { length into.new ≡ octets_most }
{
    if ask.spid >= 0x1_0000_0000 {
        return Err(BuildFault::NoSpid);
    }
    builder.build(ask.spid as u32, ask.count, items, into)
}

// Builds the packet that a line asks for.
fn build_line(
    builder: &mut Builder<'_>,
    line: &[u8],
    items: &mut Vec<Item>,
    into: &mut [u8],
) -> Result<u32, BuildFault>
    requires room { length into.old ≡ octets_most }
    ensures built { Builds result (answer_to builder.old (asked_in line.now)) into.new }
    ensures few { IfOk result (λ octets. octets ≤ octets_most) }
    ensures kept { builder.new ≡ builder.old }
    ensures room { length into.new ≡ octets_most }
{
    match ask_in(line, items) {
        Ok(Some(ask)) => build_ask(builder, ask, items, into),
        Ok(None) => Err(BuildFault::Ask),
        Err(AllocError) => Err(BuildFault::Memory),
    }
}

/// Answers a line: its packet is put at the front of octets, and none of a line that is passed over. Tells how many octets
/// there are, or the first fault. Any call may tell `Memory`.
pub(crate) fn answer(
    builder: &mut Builder<'_>,
    line: &[u8],
    items: &mut Vec<Item>,
    into: &mut [u8],
) -> Result<u32, BuildFault>
    requires room { length into.old ≡ octets_most }
    ensures answers { Answers builder.old result line.now into.new }
    ensures few { IfOk result (λ octets. octets ≤ octets_most) }
    ensures kept { builder.new ≡ builder.old }
    ensures room { length into.new ≡ octets_most }
{
    if is_passed_over(line) {
        return Ok(0);
    }
    build_line(builder, line, items, into)
}
