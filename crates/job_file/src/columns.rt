// The columns of a job.
use crate::fault::{Fault, JobError, Wrong};
use crate::source::Source;
use kinds::column_type;
use std::alloc::Global;
use std::io;
use std::io::Read;

// So many columns a job may have.
const MOST: usize = 32;

const NAME_BYTES: usize = 255;

#[derive(Clone, Copy)]
struct Name {
    bytes: [u8; NAME_BYTES],
    length: u8,
}

impl Name {
    fn text(&self) -> &[u8] {
        self.bytes.get(..usize::from(self.length)).unwrap_or(&[])
    }
}

// The types stand in a row by themselves, as the library is given them.
#[derive(Drop)]
pub struct Columns {
    types: Vec<u8>,
    names: Vec<Name>,
}

// A wrong type is wrong where its column begins.
fn read_type<R: Read>(source: &mut Source<R>) -> Result<(u8, u8), Fault> {
    let place = source.place();
    let [kind, name_bytes] = source.next::<2>(Wrong::CutColumn)?;
    if kind > column_type::BINARY {
        return Err(Fault {
            wrong: Wrong::NoColumnType,
            place,
        });
    }
    Ok((kind, name_bytes))
}

fn read_name<R: Read>(source: &mut Source<R>, length: u8) -> Result<Name, Fault> {
    let mut name = Name {
        bytes: [0; NAME_BYTES],
        length,
    };
    source.fill_all(&mut name.bytes[..usize::from(length)], Wrong::CutName)?;
    Ok(name)
}

impl Columns {
    // There is room for so many columns before the first is read.
    fn new(alloc: Global, count: usize) -> io::Result<Columns> {
        Ok(Columns {
            types: Vec::with_capacity(alloc, count)?,
            names: Vec::with_capacity(alloc, count)?,
        })
    }

    pub fn read<R: Read>(
        alloc: Global,
        source: &mut Source<R>,
        count: usize,
    ) -> Result<Columns, JobError> {
        if count > MOST {
            return Err(JobError::from(Fault {
                wrong: Wrong::ManyColumns,
                place: source.place(),
            }));
        }
        let mut columns = Columns::new(alloc, count)?;
        for _ in 0..count {
            let (kind, name_bytes) = read_type(source)?;
            let name = read_name(source, name_bytes)?;
            columns.push(kind, name)?;
        }
        Ok(columns)
    }

    fn push(&mut self, kind: u8, name: Name) -> io::Result<()> {
        self.types.push(kind)?;
        self.names.push(name)?;
        Ok(())
    }

    pub fn types(&self) -> &[u8] {
        self.types.as_slice()
    }

    pub fn has(&self, column: u32, kind: u8) -> bool {
        self.types.get(column as usize) == Some(&kind)
    }

    // Any bytes may be a name. A number that is no column's has none.
    pub fn name(&self, column: u16) -> &[u8] {
        match self.names.get(usize::from(column)) {
            Some(name) => name.text(),
            None => &[],
        }
    }
}
