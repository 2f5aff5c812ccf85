// A part that is read the short way: the polygon of a record that has an xy list and no other.
ghost use Rattle.walks.specs.Lone.{LonePart};

use crate::walk::Role;
use kinds::flags::Flags;
use kinds::geometry::Stretch;

// The list of part n, where it is read as a polygon of pairs with nothing beside them and its record has no other list.
pub fn lone_part(table: &[u8], lent: usize, flags: Flags, role: Role, n: usize) -> Option<Stretch>
    ensures { LonePart flags role table.now lent n result }
{
    match role {
        Role::Polygon => {
            if flags.multi() {
                None
            } else {
                store::lone_list_at(table, lent, n)
            }
        }
        Role::Geometry => None,
        Role::Curve { above: _ } => None,
    }
}
