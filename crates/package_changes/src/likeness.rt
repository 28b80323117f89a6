//! How alike two types are.
ghost use Rattle.std.specs.Prelude.{◌≡◌, true, false};
ghost use Rattle.package_changes.specs.Alike.{both, leaves};

/// How alike an older and a newer type are.
#[derive(Clone, Copy, Debug)]
pub struct Likeness {
    /// They are equal, with their labels.
    pub same: bool,
    /// They are equal without labels.
    pub equal: bool,
    /// The newer one takes each value of the older one as it was.
    pub wider: bool,
    /// A label of the older one is at another place in the newer one.
    pub moved: bool,
    /// A label of the older one is not where it was.
    pub renamed: bool,
}

impl Likeness {
    /// That of types without labels, which are equal or have nothing in common.
    pub(crate) fn of_leaves(are_equal: bool) -> Likeness
        ensures { result ≡ leaves are_equal }
    {
        Likeness {
            same: are_equal,
            equal: are_equal,
            wider: are_equal,
            moved: false,
            renamed: false,
        }
    }

    /// That of two types with these two parts.
    pub(crate) fn and(self, other: Likeness) -> Likeness
        ensures { result ≡ both self other }
    {
        Likeness {
            same: self.same && other.same,
            equal: self.equal && other.equal,
            wider: self.wider && other.wider,
            moved: self.moved || other.moved,
            renamed: self.renamed || other.renamed,
        }
    }
}
