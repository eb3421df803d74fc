// Intents: which are asked for, and what they do.
ghost use Rattle.std.specs.Prelude.{◌≡◌, ◌<◌};
ghost use Rattle.label.specs.Words.{bit};
ghost use Rattle.monitor.specs.Monitor.{asks, attribute_valid, destructive_read, intents_valid, kind_valid};
ghost use Rattle.monitor.specs.Internal.Needs.{intent_number, modifies_of, observes_of};

use crate::{FileKind, ObjectClass};

// Whether a bit of a number is set.
#[tactic(auto, unfolding(label::specs::Words::bit))]
pub(crate) fn bit(n: u64, index: u32) -> bool
    requires { index < 64 }
    ensures { result ≡ bit n index }
{
    (n >> index) % 2 == 1
}

// What may be asked for, in the order of the bits.
#[derive(Clone, Copy)]
pub(crate) enum Intent {
    Write,
    Read,
    Execute,
    Search,
    GetAttribute,
    SetAttribute,
}

// The intents that are asked for, by their bits. It may be any number: `valid` says which can be asked for.
#[derive(Clone, Copy)]
pub(crate) struct Intents(pub u64);

impl Intents {
    // Whether an intent is among those that are asked for.
    pub(crate) fn asks(self, intent: Intent) -> bool
        ensures { result ≡ asks self.0 (intent_number intent) }
    {
        bit(self.0, intent as u32)
    }

    // Whether an intent that is asked for observes the object.
    #[tactic(auto, unfolding(crate::specs::Internal::Needs::observes_of))]
    pub(crate) fn observe(self) -> bool
        ensures { result ≡ observes_of self.0 }
    {
        self.asks(Intent::Read)
            | self.asks(Intent::Execute)
            | self.asks(Intent::Search)
            | self.asks(Intent::GetAttribute)
    }

    // Whether an intent that is asked for modifies the object.
    #[tactic(auto, unfolding(crate::specs::Internal::Needs::modifies_of))]
    pub(crate) fn modify(self, class: ObjectClass) -> bool
        ensures { result ≡ modifies_of self.0 class }
    {
        self.asks(Intent::Write)
            | (self.asks(Intent::Read) & destructive_read(class))
            | self.asks(Intent::SetAttribute)
    }

    // Whether the intents are any, and can be asked for together.
    #[tactic(auto, unfolding(crate::specs::Monitor::intents_valid))]
    pub(crate) fn valid(self) -> bool
        ensures { result ≡ intents_valid self.0 }
    {
        (0 < self.0) & (self.0 <= 63) & !(self.asks(Intent::Execute) & self.asks(Intent::Search))
    }

    // Whether the object is of the kind that the intents are for.
    #[tactic(auto, unfolding(crate::specs::Monitor::kind_valid))]
    pub(crate) fn kind_valid(self, class: ObjectClass, kind: FileKind) -> bool
        ensures { result ≡ kind_valid self.0 class kind }
    {
        let file = class == ObjectClass::File;
        (!self.asks(Intent::Execute) | (file & (kind == FileKind::Regular)))
            & (!self.asks(Intent::Search) | (file & (kind == FileKind::Directory)))
    }

    // Whether the attribute type is one, if an attribute is asked for.
    #[tactic(auto, unfolding(crate::specs::Monitor::attribute_valid))]
    pub(crate) fn attribute_valid(self, attribute: u64) -> bool
        ensures { result ≡ attribute_valid self.0 attribute }
    {
        !(self.asks(Intent::GetAttribute) | self.asks(Intent::SetAttribute))
            | matches!(attribute, 1 | 2)
    }
}

// Whether a read takes away what it reads, and so is a read and a write together. Each class is listed, so that a new one has to say which it is:
// document 02's request 2026-03 moved the message queue.
fn destructive_read(class: ObjectClass) -> bool
    ensures { result ≡ destructive_read class }
{
    match class {
        ObjectClass::Fifo | ObjectClass::MessageQueue => true,
        ObjectClass::File
        | ObjectClass::Process
        | ObjectClass::SharedMemory
        | ObjectClass::Semaphore => false,
    }
}
