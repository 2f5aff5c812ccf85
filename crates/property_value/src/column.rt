// Column types: how wide a number is, and which have a length first.
ghost use Rattle.std.specs.Prelude.{◌≡◌};
ghost use Rattle.kinds.specs.ColumnType.{type_number};
ghost use Rattle.property_value.specs.Column.{WidthIs, is_text};

use kinds::column_type::ColumnType;

// How many bytes a number of each type has, by the type's number, and 0 for the types that have a length first. It is a table and no match,
// since of a match LLVM makes a jump wherever a width is asked for.
const WIDTHS: [usize; 15] = [1, 1, 1, 2, 2, 4, 4, 8, 8, 4, 8, 0, 0, 0, 0];

// How many bytes a number has, and none for the types that have a length first.
pub fn width(kind: ColumnType) -> Option<usize>
    ensures { WidthIs (type_number kind) result }
{
    let width = WIDTHS[kind.number() as usize];
    if width == 0 { None } else { Some(width) }
}

// Whether the bytes of a type's values are to be UTF-8.
#[tactic(auto, unfolding(crate::specs::Column::is_text))]
pub fn is_text(kind: ColumnType) -> bool
    ensures { result ≡ is_text (type_number kind) }
{
    matches!(
        kind,
        ColumnType::String | ColumnType::Json | ColumnType::DateTime
    )
}
