// Column types, by the numbers of header.fbs.
ghost use Rattle.std.specs.Prelude.{◌≡◌};
ghost use Rattle.kinds.specs.ColumnType.{type_number, TypeOf};

#[derive(Clone, Copy, Debug, PartialEq, Eq)]
pub enum ColumnType {
    Byte = 0,
    UByte = 1,
    Bool = 2,
    Short = 3,
    UShort = 4,
    Int = 5,
    UInt = 6,
    Long = 7,
    ULong = 8,
    Float = 9,
    Double = 10,
    String = 11,
    Json = 12,
    DateTime = 13,
    Binary = 14,
}

// A byte that is no type's number.
#[derive(Clone, Copy, Debug, PartialEq, Eq)]
pub struct NoColumnType;

impl TryFrom<u8> for ColumnType {
    type Error = NoColumnType;

    ghost try_from_gives = { λ byte r. TypeOf byte r };

    fn try_from(byte: u8) -> Result<ColumnType, NoColumnType> {
        match byte {
            0 => Ok(ColumnType::Byte),
            1 => Ok(ColumnType::UByte),
            2 => Ok(ColumnType::Bool),
            3 => Ok(ColumnType::Short),
            4 => Ok(ColumnType::UShort),
            5 => Ok(ColumnType::Int),
            6 => Ok(ColumnType::UInt),
            7 => Ok(ColumnType::Long),
            8 => Ok(ColumnType::ULong),
            9 => Ok(ColumnType::Float),
            10 => Ok(ColumnType::Double),
            11 => Ok(ColumnType::String),
            12 => Ok(ColumnType::Json),
            13 => Ok(ColumnType::DateTime),
            14 => Ok(ColumnType::Binary),
            _ => Err(NoColumnType),
        }
    }
}

impl ColumnType {
    pub fn number(self) -> u8
        ensures { result ≡ type_number self }
    {
        self as u8
    }
}

// The numbers that the programs tell apart.
pub const BYTE: u8 = 0;

pub const BOOL: u8 = 2;

pub const SHORT: u8 = 3;

pub const INT: u8 = 5;

pub const LONG: u8 = 7;

pub const FLOAT: u8 = 9;

pub const DOUBLE: u8 = 10;

pub const STRING: u8 = 11;

pub const BINARY: u8 = 14;
