//! The count of the steps that a table takes.
ghost use Rattle.std.specs.Prelude.{◌≡◌, ◌+◌, ◌<◌, ◌^◌};
ghost use Rattle.layout.specs.Work.{saturated};

/// How many steps were taken; the greatest u64 where they are more.
#[derive(Drop)]
pub(crate) struct Steps {
    pub(crate) count: u64,
    ghost fits: { count < 2 ^ 64 },
}

impl Steps {
    pub(crate) fn take_one(&mut self)
        ensures { self.new.count ≡ saturated (self.old.count + 1) }
    {
        self.count = self.count.saturating_add(1);
    }
}
