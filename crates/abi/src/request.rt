// What the monitor is asked about: the subject and the object.
ghost use Rattle.std.specs.Prelude.{◌≡◌};
ghost use Rattle.common.specs.Answer.{answer_of, granted, require};
ghost use Rattle.abi.specs.Request.{credentials_formed, credentials_of, object_formed, object_of};

use common::errno::Errno;
use label::Label;
use monitor::numbers::ObjectType;
use monitor::{Credentials, FileKind, Object, ObjectClass, Presence, Privileges, numbers};
use range::Range;
use range::tuple::Tuple;

#[repr(C)]
#[derive(Clone, Copy)]
pub struct CCredentials {
    pub label: Label,
    pub range: Range,
    pub read_override: u64,
    pub write_override: u64,
    pub relabel: u64,
}

// Class: 0 file, 1 fifo, 2 process, 3 message queue, 4 shared memory, 5 semaphore. Kind: 0 regular, 1 directory, 2 other; it counts for a file.
#[repr(C)]
#[derive(Clone, Copy)]
pub struct CObject {
    pub class: u64,
    pub kind: u64,
    pub has_label: u64,
    pub has_tuple: u64,
    pub label: Label,
    pub tuple: Tuple,
}

impl CCredentials {
    // Whether the flags are some that there are.
    pub fn formed(&self) -> bool
        ensures { result ≡ credentials_formed self.now }
    {
        (self.read_override <= 1) & (self.write_override <= 1) & (self.relabel <= 1)
    }
}

impl CObject {
    // Whether the class, the kind of a file, and the flags are some that there are.
    pub fn formed(&self) -> bool
        ensures { result ≡ object_formed self.now }
    {
        numbers::type_of(self.class, self.kind).is_some()
            & (self.has_label <= 1)
            & (self.has_tuple <= 1)
    }
}

// The credentials of any numbers, where what is no flag counts as 0: for what was tested. The conversion refuses them.
pub fn decode_credentials(c: CCredentials) -> Credentials
    ensures { result ≡ credentials_of c }
{
    Credentials {
        label: c.label,
        range: c.range,
        privileges: Privileges {
            read: c.read_override == 1,
            write: c.write_override == 1,
            relabel: c.relabel == 1,
        },
    }
}

// The object of any numbers, where those that name none, and what is no flag, are as 0: for what was tested. The conversion refuses them.
pub fn decode_object(o: CObject) -> Object
    ensures { result ≡ object_of o }
{
    let (class, kind) = (o.class, o.kind);
    let named = numbers::type_of(class, kind).unwrap_or(ObjectType {
        class: ObjectClass::File,
        kind: FileKind::Regular,
    });
    Object {
        class: named.class,
        kind: named.kind,
        present: Presence {
            label: o.has_label == 1,
            tuple: o.has_tuple == 1,
        },
        label: o.label,
        tuple: o.tuple,
    }
}

impl TryFrom<CCredentials> for Credentials {
    type Error = Errno;

    ghost try_from_gives = { λ c r. answer_of r ≡ require (credentials_formed c) 22 (granted (credentials_of c)) };

    fn try_from(c: CCredentials) -> Result<Credentials, Errno> {
        if !c.formed() {
            return Err(Errno::Invalid);
        }
        Ok(decode_credentials(c))
    }
}

impl TryFrom<CObject> for Object {
    type Error = Errno;

    ghost try_from_gives = { λ o r. answer_of r ≡ require (object_formed o) 22 (granted (object_of o)) };

    fn try_from(o: CObject) -> Result<Object, Errno> {
        if !o.formed() {
            return Err(Errno::Invalid);
        }
        Ok(decode_object(o))
    }
}
