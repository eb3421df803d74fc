// Classes, kinds and privileges by their numbers, as programs and C have them. A number that names nothing has none: an `Option` says that, and an
// error type for `TryFrom` would say no more.
ghost use Rattle.std.specs.Prelude.{◌≡◌};
ghost use Rattle.monitor.specs.Numbers.{class_named, kind_named, privileges_named, type_named};

use crate::intent::bit;
use crate::{FileKind, ObjectClass, Privileges};

// What an object is: its class, and of a file its kind. What is no file has the kind `Other`.
#[derive(Clone, Copy, PartialEq, Eq)]
pub struct ObjectType {
    pub class: ObjectClass,
    pub kind: FileKind,
}

// What each number names. Read from a table: where each number had an arm of a `match`, the compiler made a jump table, which processors often predict
// wrongly.
const KINDS: [FileKind; 3] = [FileKind::Regular, FileKind::Directory, FileKind::Other];

const CLASSES: [ObjectClass; 6] = [
    ObjectClass::File,
    ObjectClass::Fifo,
    ObjectClass::Process,
    ObjectClass::MessageQueue,
    ObjectClass::SharedMemory,
    ObjectClass::Semaphore,
];

// The class of a number, 0 to 5, and for a file the kind of another, 0 to 2. For what is no file the second may be any number.
#[tactic(auto, unfolding(crate::specs::Numbers::type_named, crate::specs::Numbers::class_named, crate::specs::Numbers::kind_named))]
pub fn type_of(class: u64, kind: u64) -> Option<ObjectType>
    ensures { result ≡ type_named class kind }
{
    let class = CLASSES.get(class as usize).copied()?;
    let kind = if class == ObjectClass::File {
        KINDS.get(kind as usize).copied()?
    } else {
        FileKind::Other
    };
    Some(ObjectType { class, kind })
}

// The privileges whose bits are set in a number up to 7: bit 0 read override, 1 write override, 2 relabel.
#[tactic(auto, unfolding(crate::specs::Numbers::privileges_named))]
pub fn privileges_of(n: u64) -> Option<Privileges>
    ensures { result ≡ privileges_named n }
{
    if n > 7 {
        return None;
    }
    Some(Privileges {
        read: bit(n, 0),
        write: bit(n, 1),
        relabel: bit(n, 2),
    })
}
