// A geometry's head: its order mark and its type.
ghost use Rattle.std.specs.Prelude.{◌≡◌};
ghost use Rattle.wkb_reader.specs.Parts.{HeadIs, TypeIs};

use crate::input::Input;
use kinds::refusal::Refusal;
use wkb::Order;

#[derive(Clone, Copy)]
pub struct Head {
    pub order: Order,
    pub kind: u32,
}

// The next field as a type from `least` to `most`, of a geometry in this order. Refused: 18, 19.
fn read_type(input: &mut Input, order: Order, least: u32, most: u32) -> Result<u32, Refusal>
    ensures { TypeIs order least most input.old input.new result }
{
    let kind = input.u32(order)?;
    if (least <= kind) & (kind <= most) {
        Ok(kind)
    } else {
        Err(Refusal::WkbUnknown)
    }
}

// The next head: an order mark, and a type from `least` to `most`. Refused: 18, 19 at the mark, and then at the type.
pub fn read_head(input: &mut Input, least: u32, most: u32) -> Result<Head, Refusal>
    ensures { HeadIs least most input.old input.new result }
{
    let Some(order) = Order::of(input.byte()?) else {
        return Err(Refusal::WkbUnknown);
    };
    let kind = read_type(input, order, least, most)?;
    Ok(Head { order, kind })
}
