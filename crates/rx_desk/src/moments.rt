/// Where moments come from. Its relation says what a call answers and what it leaves of it.
pub trait Moments {
    ghost use Rattle.std.specs.Prelude.{ℕ};

    ghost tells: { Self → ℕ → Self → Type 0 };

    /// The present moment, in milliseconds since any beginning. It may step back.
    fn now(&mut self) -> u64
        ensures { tells self.old result self.new };
}
