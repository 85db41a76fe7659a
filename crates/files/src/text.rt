// Text put into a lent buffer, one piece after another, as much of it as fits.
// (Not by `Display` and `fmt::Write`: their contracts say what was written where a write answers `Ok`, and none says that it does.
// `Prints` promises the whole text.)
ghost use Rattle.std.specs.Prelude.{◌≤◌, length};

// A buffer, whose first `used` places hold text. (It holds what is lent by `&mut`, and is never compared: so no `Clone`, no `PartialEq`.)
#[derive(Debug, Drop)]
pub(crate) struct Text<'a> {
    pub out: &'a mut [u8],
    pub used: usize,
    ghost inside: { used ≤ length out.now },
}

impl<'a> Text<'a> {
    ghost use Rattle.std.specs.Prelude.{[], ◌∷◌, ◌++◌};
    ghost use Rattle.files.specs.inner.Told.{Puts};
    ghost use Rattle.files.specs.Text.{decimal};

    // A byte, where there is room.
    fn put_byte(&mut self, byte: u8)
        ensures { Puts (byte ∷ []) self.old self.new }
    {
        if self.used < self.out.len() {
            self.out[self.used] = byte;
            self.used += 1;
        }
    }

    // A text's bytes.
    // (Byte by byte: what has no room is left out.)
    pub(crate) fn put(&mut self, text: &[u8])
        ensures { Puts text.now self.old self.new }
    {
        for byte in text {
            self.put_byte(*byte);
        }
    }

    // A number in decimal.
    pub(crate) fn put_decimal(&mut self, n: u64)
        ensures { Puts (decimal n) self.old self.new }
    {
        if 10 <= n {
            self.put_decimal(n / 10);
        }
        self.put_byte(b'0' + (n % 10) as u8);
    }

    // A text and the number after it.
    pub(crate) fn put_labelled(&mut self, label: &[u8], n: u64)
        ensures { Puts (label.now ++ decimal n) self.old self.new }
    {
        self.put(label);
        self.put_decimal(n);
    }
}
