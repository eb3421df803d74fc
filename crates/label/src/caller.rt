// Who asks, where what is answered depends on what the one that asks may see: of a text, and of the monitor.
ghost use Rattle.std.specs.Prelude.{◌≡◌};
ghost use Rattle.label.specs.Caller.{sees_of};

use crate::Label;

#[derive(Clone, Copy)]
pub struct Caller {
    pub label: Label,
    pub read_override: bool,
}

impl Caller {
    // Whether a caller may see a label: for labels that were tested.
    #[tactic(auto, unfolding(crate::specs::Caller::sees_of))]
    pub fn sees(&self, l: &Label) -> bool
        ensures { result ≡ sees_of self.now l.now }
    {
        self.read_override | self.label.dominates(l)
    }
}
