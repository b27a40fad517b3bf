ghost use Rattle.entries.specs.Table.{values};
ghost use Rattle.partition.specs.Classes.{Masked, class_count};
ghost use Rattle.partition.specs.Rooms.{labels_by_class};
ghost use Rattle.std.specs.Prelude.{◌≡◌, length};

use crate::room::Room;
use entries::Entries;

/// How many classes there are.
pub const CLASSES: usize = 8;

/// Labels in classes 1 to `CLASSES`, and a limit for each class: a set of labels is independent where it has no more labels of a class
/// than the class's limit.
#[derive(Drop)]
pub struct Partition {
    pub(crate) classes: Entries<u8>,
    // All eight classes are there always, so that no length stands beside.
    pub(crate) rooms: [Room; CLASSES],
    ghost whole: { length rooms ≡ class_count },
    ghost masked: { Masked (values classes) (labels_by_class rooms) },
}
