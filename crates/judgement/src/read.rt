// A message that was read, as judging it goes through it.
ghost use Rattle.std.specs.Prelude.{◌≡◌, true, ◌+◌, ◌-◌, ◌≤◌, length};
ghost use Rattle.lines.specs.Index.{method_of, uri_of};
ghost use Rattle.judgement.specs.Entries.{Within, has_method};

use lines::Message;

// Its bytes, where its parts stand, and the slots of its fields.
#[derive(Clone, Copy)]
pub(crate) struct Read<'a> {
    pub message: &'a [u8],
    pub head: Message,
    pub slots: &'a [u16; 384],
    ghost short: { length message.now ≤ 8192 },
    ghost few: { head.count ≤ 96 },
    ghost named: { has_method head.start ≡ true },
    ghost line_fits: { method_of head.start + uri_of head.start ≤ 8192 },
    ghost rest_within: { head.rest ≤ length message.now },
    ghost slots_within: { Within message.now slots.now },
}

impl<'a> Read<'a> {
    // How many bytes stand after the empty line.
    pub(crate) fn rest(&self) -> usize
        ensures { result ≡ length self.now.message.now - self.now.head.rest }
    {
        self.message.len() - self.head.rest
    }
}
