// The guard over a work strip. Rests on nothing.
ghost use Rattle.std.specs.Prelude.{◌≡◌, length, replicate};

// A work strip that is wiped when it goes out of scope, on whatever way out of a row call.
pub struct WorkStrip<'a> {
    pub strip: &'a mut [u8],
}

impl Drop for WorkStrip<'_> {
    fn drop(self)
        ensures { self.exit.0.now ≡ replicate (length self.entry.strip.now) 0 }
    {
        self.strip.fill(0);
        let WorkStrip { strip: _ } = self;
    }
}
