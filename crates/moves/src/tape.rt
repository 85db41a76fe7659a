// The tape: its words, and the place of the next.
ghost use Rattle.std.specs.Prelude.{◌≤◌, length};

/// The words of a step.
#[derive(Clone, Copy, Debug, PartialEq, Eq)]
pub(crate) struct Draw {
    pub e: u64,
    pub p: u64,
}

/// A tape of words, and the place of the next.
#[derive(Clone, Copy, Debug)]
pub struct Tape<'a> {
    pub words: &'a [u64],
    pub at: usize,
    ghost within: { at ≤ length words.now },
}

impl<'a> Tape<'a> {
    ghost use Rattle.std.specs.Prelude.{◌≡◌, ◌+◌, ◌<◌, ◌≤◌, length, get_or, IfSome, IfNone};

    // One word, where there is one.
    pub(crate) fn draw(&mut self) -> Option<u64>
        ensures there { IfSome result (λ w. self.old.at < length self.old.words.now) }
        ensures word { IfSome result (λ w. w ≡ get_or self.old.words.now self.old.at 0) }
        ensures next { IfSome result (λ w. self.new.at ≡ self.old.at + 1) }
        ensures ended { IfNone result (length self.old.words.now ≤ self.old.at) }
        ensures words { self.new.words.now ≡ self.old.words.now }
    {
        let word = self.words.get(self.at).copied()?;
        self.at += 1;
        Some(word)
    }

    // Two words, where both are there.
    pub(crate) fn draw_two(&mut self) -> Option<Draw>
        ensures there { IfSome result (λ d. self.old.at + 2 ≤ length self.old.words.now) }
        ensures first { IfSome result (λ d. d.e ≡ get_or self.old.words.now self.old.at 0) }
        ensures second { IfSome result (λ d. d.p ≡ get_or self.old.words.now (self.old.at + 1) 0) }
        ensures next { IfSome result (λ d. self.new.at ≡ self.old.at + 2) }
        ensures short { IfNone result (length self.old.words.now < self.old.at + 2) }
        ensures words { self.new.words.now ≡ self.old.words.now }
    {
        if self.words.len() - self.at < 2 {
            return None;
        }
        let e = self.words[self.at];
        let p = self.words[self.at + 1];
        self.at += 2;
        Some(Draw { e, p })
    }
}
