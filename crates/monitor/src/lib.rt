// The reference monitor: may a subject with these credentials do that to an object with these attributes, and may the caller ask. `check`
// tests all that it is handed, and decides by document 01's steps.
#![tactic(auto)]

mod intent;
pub mod numbers;

ghost use Rattle.std.specs.Prelude.{◌≡◌};
ghost use Rattle.monitor.specs.Monitor.{caller_sees, credentials_valid, decision_for, decision_of, object_valid, valid_of};
ghost use Rattle.monitor.specs.Internal.Needs.{answer_by, needed_of, tests_of};

use common::errno::Errno;
use intent::{Intent, Intents};
use label::Label;
use label::caller::Caller;
use range::tuple::Tuple;
use range::{Range, tuple};

// Document 01's privileges: read override, write override, relabel.
#[derive(Clone, Copy)]
pub struct Privileges {
    pub read: bool,
    pub write: bool,
    pub relabel: bool,
}

// The subject, whom a request is about.
#[derive(Clone, Copy)]
pub struct Credentials {
    pub label: Label,
    pub range: Range,
    pub privileges: Privileges,
}

// Document 01's type of an object.
#[derive(Clone, Copy, PartialEq, Eq)]
pub enum ObjectClass {
    File,
    Fifo,
    Process,
    MessageQueue,
    SharedMemory,
    Semaphore,
}

#[derive(Clone, Copy, PartialEq, Eq)]
pub enum FileKind {
    Regular,
    Directory,
    Other,
}

// Which of an object's label and tuple are there. What one that is not there holds is not looked at: the theorems `absent_label` and `absent_tuple` say
// so of any two, and with `Option` they could not be stated.
#[derive(Clone, Copy)]
pub struct Presence {
    pub label: bool,
    pub tuple: bool,
}

#[derive(Clone, Copy)]
pub struct Object {
    pub class: ObjectClass,
    pub kind: FileKind,
    pub present: Presence,
    pub label: Label,
    pub tuple: Tuple,
}

// What the monitor is asked. Intents and attribute type are numbers of any size, and `decision_for` says what is answered to each. The caller is who
// asks, be it the subject itself or another.
#[derive(Clone, Copy)]
pub struct Request {
    pub credentials: Credentials,
    pub object: Object,
    pub intents: u64,
    pub attribute: u64,
    pub caller: Caller,
}

// Of a grant, whether a privilege was needed for it.
#[derive(Clone, Copy, PartialEq, Eq)]
pub enum Grant {
    Plain,
    Privileged,
}

// Which tests a subject's label meets: the one to observe an object, and the one to modify it.
#[derive(Clone, Copy)]
struct Met {
    observe: bool,
    modify: bool,
}

impl Credentials {
    // Whether the label is inside the range, which is valid.
    #[tactic(auto, using(crate::proofs::ValidLaws::credentials_held))]
    fn valid(&self) -> bool
        ensures { result ≡ credentials_valid self.now }
    {
        range::valid(self.range) & self.range.holds(&self.label)
    }
}

impl Object {
    // Whether there is a label or a tuple, and each that is there is valid. The test of a tuple takes longest, and is left out where there is none.
    #[tactic(auto, unfolding(crate::specs::Monitor::object_valid))]
    fn valid(&self) -> bool
        ensures { result ≡ object_valid self.now }
    {
        (self.present.label | self.present.tuple)
            & (!self.present.label | label::valid(self.label))
            & (!self.present.tuple || tuple::valid(self.tuple))
    }

    // The tests that a subject's label meets. A label governs where both are there; under a tuple alone both tests are whether it contains the label.
    #[tactic(auto, unfolding(crate::specs::Monitor::met_of))]
    fn met(&self, subject: &Label) -> Met
        ensures { result ≡ tests_of subject.now self.now }
    {
        if self.present.label {
            return Met {
                observe: subject.dominates(&self.label),
                modify: subject.equals(&self.label),
            };
        }
        let inside = self.present.tuple & self.tuple.holds(subject);
        Met {
            observe: inside,
            modify: inside,
        }
    }
}

impl Request {
    // Whether what is asked can be decided: document 01's first step.
    #[tactic(auto, unfolding(crate::specs::Monitor::valid_of))]
    fn valid(&self) -> bool
        ensures { result ≡ valid_of self.now }
    {
        let intents = Intents(self.intents);
        intents.valid()
            & self.credentials.valid()
            & self.object.valid()
            & intents.kind_valid(self.object.class, self.object.kind)
            & intents.attribute_valid(self.attribute)
            & label::valid(self.caller.label)
    }

    // Whether the caller may ask: it sees the subject's label, and the object's where there is one.
    #[tactic(auto, unfolding(crate::specs::Monitor::caller_sees))]
    fn caller_sees(&self) -> bool
        ensures { result ≡ caller_sees self.now }
    {
        self.caller.sees(&self.credentials.label)
            & (!self.object.present.label | self.caller.sees(&self.object.label))
    }

    // The privileges that are needed: an override where a test is not met, and relabel to set an attribute.
    #[tactic(auto, unfolding(crate::specs::Internal::Needs::needed_of))]
    fn needed(&self) -> Privileges
        ensures { result ≡ needed_of self.now }
    {
        let intents = Intents(self.intents);
        let met = self.object.met(&self.credentials.label);
        Privileges {
            read: intents.observe() & !met.observe,
            write: intents.modify(self.object.class) & !met.modify,
            relabel: intents.asks(Intent::SetAttribute),
        }
    }
}

// What is answered where privileges are needed: document 01's second and third step, and the grants.
#[tactic(auto, unfolding(crate::specs::Internal::Needs::answer_by))]
fn answer(needed: Privileges, p: Privileges) -> Result<Grant, Errno>
    ensures { decision_of result ≡ answer_by needed p }
{
    if (needed.read & !p.read) | (needed.write & !p.write) {
        return Err(Errno::Access);
    }
    if needed.relabel & !p.relabel {
        return Err(Errno::Perm);
    }
    if needed.read | needed.write | needed.relabel {
        return Ok(Grant::Privileged);
    }
    Ok(Grant::Plain)
}

// May the subject do that to the object.
#[tactic(auto, using(crate::proofs::NeedsLaws::decide_needed))]
pub fn check(r: Request) -> Result<Grant, Errno>
    ensures { decision_of result ≡ decision_for r }
{
    if !r.valid() {
        return Err(Errno::Invalid);
    }
    if !r.caller_sees() {
        return Err(Errno::Access);
    }
    answer(r.needed(), r.credentials.privileges)
}
