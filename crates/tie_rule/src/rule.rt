ghost use Rattle.std.specs.Prelude.{◌≡◌, ℕ};
ghost use Rattle.tie_rule.specs.Laws.{TieLaws};

/// A rule that picks one of several candidates, and may keep a state between its choices.
/// Its meaning is the choice and the state after it; each rule proves the laws for its own, and code over any rule uses them.
pub trait TieRule {
    ghost choice: { Self → ℕ → ℕ → ℕ };

    ghost next: { Self → ℕ → ℕ → Self };

    /// Told a label and a set, whose labels below that label are the candidates; answers one of them, or 0 if there is none.
    // No `Option`: 0 is no label, so nothing is mixed up, and the walk, which asks only where there is a candidate, would have to open it.
    fn choose(&mut self, label: u8, set: u64) -> u8
        ensures choice { result ≡ choice self.old label set }
        ensures next { self.new ≡ next self.old label set };

    ghost lawful: { TieLaws choice next };
}
