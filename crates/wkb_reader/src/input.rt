// The bytes that are left to be read, taken field by field.
ghost use Rattle.std.specs.Prelude.{◌≡◌};
ghost use Rattle.wkb_reader.specs.Fields.{FieldIs, PairIs};

use kinds::event::Xy;
use kinds::refusal::Refusal;
use wkb::Order;

#[derive(Clone, Copy)]
pub struct Input<'a> {
    pub left: &'a [u8],
}

// Each field is taken where it is asked for: as calls, Rattle's own compiler hands the rest of the bytes on through memory.
impl<'a> Input<'a> {
    #[inline(always)]
    pub fn byte(&mut self) -> Result<u8, Refusal>
        ensures { FieldIs Order.Little 1 self.old self.new result }
    {
        let Some((byte, rest)) = self.left.split_first() else {
            return Err(Refusal::WkbCut);
        };
        self.left = rest;
        Ok(*byte)
    }

    #[inline(always)]
    pub fn u32(&mut self, order: Order) -> Result<u32, Refusal>
        ensures { FieldIs order 4 self.old self.new result }
    {
        let Some((field, rest)) = self.left.split_at_checked(4) else {
            return Err(Refusal::WkbCut);
        };
        self.left = rest;
        Ok(wkb::u32_at(field, 0, order))
    }

    // A pair is cut short where either of its numbers is.
    #[inline(always)]
    pub fn pair(&mut self, order: Order) -> Result<Xy, Refusal>
        ensures { PairIs order self.old self.new result }
    {
        let left = self.left;
        if left.len() < 16 {
            return Err(Refusal::WkbCut);
        }
        self.left = &left[16..];
        Ok(Xy {
            x: wkb::u64_at(left, 0, order),
            y: wkb::u64_at(left, 8, order),
        })
    }
}
