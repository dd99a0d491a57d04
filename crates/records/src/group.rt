// The groups of messages, each a line of the report.
ghost use Rattle.std.specs.Prelude.{◌≡◌, ◌+◌, ◌*◌, ◌≤◌, length};
ghost use Rattle.records.specs.Running.{row_of};
ghost use Rattle.records.specs.Kinds.{group_number};

// Relay callers, other callers, and messages that were not read.
#[derive(Clone, Copy)]
pub(crate) enum Group {
    Relay,
    Other,
    Unread,
}

impl Group {
    // Where the 20 counts of a group begin.
    pub(crate) fn first(self) -> usize
        ensures { (result ≡ 20 * group_number self) × (result ≤ 40) }
    {
        match self {
            Group::Relay => 0,
            Group::Other => 20,
            Group::Unread => 40,
        }
    }

    // The counts of a group, by the reason. A slice, since an array of the same 20 would have to be looked for in it and unwrapped.
    pub(crate) fn row(self, counts: &[u32; 60]) -> &[u32]
        ensures { (result.now ≡ row_of (20 * group_number self) counts.now) × (length result.now ≡ 20) }
    {
        let first = self.first();
        &counts[first..first + 20]
    }
}
