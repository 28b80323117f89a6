//! What a host that was built for an older function can do with a newer one.
ghost use Rattle.std.specs.Prelude.{◌≡◌};
ghost use Rattle.package_changes.specs.Judging.{is_lost_by, verdict_of};

use crate::likeness::Likeness;

/// What a host does with a function.
#[derive(Clone, Copy, Debug)]
pub enum Role {
    /// It calls the function.
    Called,
    /// It answers calls of the function.
    Served,
    Both,
}

/// What became of a function.
#[derive(Clone, Copy, Debug)]
pub enum Verdict {
    /// Its types are equal, with their labels.
    Same,
    /// A label is new, and no older one is at another place.
    Renamed,
    /// Its closed types take each value of the older ones as it was, and more.
    Wider,
    /// An older label is at another place.
    Moved,
    /// Its closed types differ.
    Changed,
    /// It is gone.
    Removed,
}

impl Role {
    /// The verdict of a function whose parameters, as a record, and whose result are this alike to those of the newer
    /// one, to a host in this role.
    pub(crate) fn verdict_of(self, inputs: Likeness, output: Likeness) -> Verdict
        ensures { result ≡ verdict_of self inputs output }
    {
        let is_taken = match self {
            Role::Called => inputs.wider && output.equal,
            Role::Served => inputs.equal && output.wider,
            Role::Both => inputs.equal && output.equal,
        };
        if !is_taken {
            return Verdict::Changed;
        }
        if inputs.same && output.same {
            return Verdict::Same;
        }
        if inputs.moved || output.moved {
            return Verdict::Moved;
        }
        let is_equal = inputs.equal && output.equal;
        let is_renamed = inputs.renamed || output.renamed;
        if !is_equal && !is_renamed {
            return Verdict::Wider;
        }
        Verdict::Renamed
    }
}

impl Verdict {
    /// Whether a host in this role that was built for the older function does without it.
    pub(crate) fn is_lost(self, role: Role) -> bool
        ensures { result ≡ is_lost_by self role }
    {
        match self {
            Verdict::Same | Verdict::Renamed | Verdict::Wider => false,
            Verdict::Moved | Verdict::Changed => true,
            Verdict::Removed => match role {
                Role::Served => false,
                Role::Called | Role::Both => true,
            },
        }
    }
}
