// A lent buffer that is written from a place on.
#![tactic(auto)]

ghost use Rattle.std.specs.Prelude.{◌+◌, ◌≤◌, length};
ghost use Rattle.output.specs.Put.{Put};

// The buffer, and where the next byte goes.
#[derive(Drop)]
pub struct Output<'a> {
    pub bytes: &'a mut [u8],
    pub at: usize,
}

impl Output<'_> {
    // Puts these bytes there, and keeps every other byte. (Inlined, so that the few bytes of a row are stored without a call.)
    #[inline(always)]
    pub fn put(&mut self, bytes: &[u8])
        requires { self.old.at + length bytes.now ≤ length self.old.bytes.now }
        ensures { Put bytes.now self.old self.new }
    {
        let end = self.at + bytes.len();
        self.bytes[self.at..end].copy_from_slice(bytes);
        self.at = end;
    }
}
