// The items of a job.
use crate::fault::{Fault, Wrong};
use crate::source::Source;
use event_log::EVENT_BYTES;
use numbers::{u32_at, u64_at};
use std::io::Read;

// Before the text: the column, the type, the value's bits, the text's length.
const HEAD_BYTES: usize = 17;

// The longest text that a property may have.
pub const TEXT_BYTES: usize = 65536;

#[derive(Clone, Copy)]
pub struct Property<'a> {
    pub column: u32,
    pub kind: u8,
    pub bits: u64,
    pub text: &'a [u8],
}

#[derive(Clone, Copy)]
pub enum Item<'a> {
    Event([u8; EVENT_BYTES]),
    Property(Property<'a>),
    // The feature ends.
    Finish,
}

impl<'a> Property<'a> {
    fn read<R: Read>(source: &mut Source<R>, room: &'a mut [u8]) -> Result<Property<'a>, Fault> {
        let head = source.next::<HEAD_BYTES>(Wrong::CutProperty)?;
        let length = u32_at(&head, 13) as usize;
        let Some(text) = room.get_mut(..length) else {
            return Err(Fault {
                wrong: Wrong::LongText,
                place: source.place(),
            });
        };
        source.fill_all(text, Wrong::CutText)?;
        Ok(Property {
            column: u32_at(&head, 0),
            kind: head[4],
            bits: u64_at(&head, 5),
            text,
        })
    }
}

impl<'a> Item<'a> {
    // The next item, of which a letter says what it is, or none where the job ends. A property's text stands in `room`, which has
    // place for the longest.
    pub fn read<R: Read>(
        source: &mut Source<R>,
        room: &'a mut [u8],
    ) -> Result<Option<Item<'a>>, Fault> {
        let place = source.place();
        let Some(letter) = source.next_byte() else {
            return Ok(None);
        };
        let item = match letter {
            b'E' => Item::Event(source.next::<EVENT_BYTES>(Wrong::CutEvent)?),
            b'P' => Item::Property(Property::read(source, room)?),
            b'F' => Item::Finish,
            _ => {
                return Err(Fault {
                    wrong: Wrong::NoItem,
                    place,
                });
            }
        };
        Ok(Some(item))
    }
}
