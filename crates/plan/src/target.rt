// The partition that a reference finds.

ghost use Rattle.std.specs.Prelude.{◌≡◌};
ghost use Rattle.plan.specs.Targets as targets;
ghost use Rattle.tree.specs.Both.{on};

use meaning::PARTITIONS;
use schema::{Partition, Text};
use tree::Rooms;

// The partition of that name: none where the list has a wrong one.
pub fn partition(rooms: Rooms<'_>, t: Text) -> Option<Partition>
    ensures { result ≡ on targets.partition rooms.entry t }
{
    let l = parse::view::partition_list(rooms);
    let p = parse::entry::read_partitions(rooms, l, PARTITIONS);
    if p.fault.number != 0 {
        return None;
    }
    layout::partition_named(rooms.store, &p.items[..p.count], t, true)
}
