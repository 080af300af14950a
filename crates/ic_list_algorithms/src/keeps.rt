//! These types choose the members that `retain` and `dedup_by` keep. A choice is a test of a member and of the member that was kept last.

ghost use Rattle.std.specs.Prelude.{◌≡◌, Bool, Option, Some, None};
ghost use Rattle.std.specs.Fn.{ComputesKey, ComputesOnPairs, CalledAt, CalledAtTwo};
ghost use Rattle.ic_list_algorithms.specs.Asked.{asks_two};
ghost use Rattle.ic_list_algorithms.specs.Sifts.{by_itself, differs};

/// A test that decides for each member whether it is kept.
pub(crate) trait Keeps<V> {
    // The states of the test in which it may be called.
    ghost ready: { Self → Type 0 };

    // `obeys state test`: from `state` on, each call returns what the mathematical function `test` returns. The arguments of `test` are the member that was
    // kept last, if there is one, and the member itself.
    ghost obeys: { Self → (Option V → V → Bool) → Type 0 };

    // `asks f prev x answer g`: in the state f a call for the member x may return `answer` and leave the state g. `prev` is the member that was kept last, or
    // none.
    ghost asks: { Self → Option V → V → Bool → Self → Type 0 };

    /// Whether `member` is kept, if no member was kept before.
    fn keeps_first(&mut self, member: &V) -> bool
        requires ready { ready self.old }
        ensures again { ready self.new }
        ensures answer { (test : Option V → V → Bool) → obeys self.old test → obeys self.new test × (result ≡ test None member.now) }
        ensures asked { asks self.old None member.now result self.new };

    /// Whether `member` is kept, if `prev` is the member that was kept last.
    fn keeps(&mut self, prev: &V, member: &V) -> bool
        requires ready { ready self.old }
        ensures again { ready self.new }
        ensures answer { (test : Option V → V → Bool) → obeys self.old test → obeys self.new test × (result ≡ test (Some prev.now) member.now) }
        ensures asked { asks self.old (Some prev.now) member.now result self.new };
}

/// The choice of `retain`: it keeps the members that pass a test.
#[derive(Drop)]
pub(crate) struct Passes<F> {
    test: F,
}

impl<F> Passes<F> {
    /// Makes a choice that keeps the members which pass the test `test`.
    pub(crate) fn new(test: F) -> Passes<F>
        ensures { result.test ≡ test }
    {
        Passes { test }
    }
}

impl<V, F: FnMut(&V) -> bool> Keeps<V> for Passes<F> {
    ghost ready = { λ keep. F.IsAlwaysCallable keep.test };

    ghost obeys = { λ keep test. (holds : V → Bool) × ComputesKey F.FnMut holds keep.test × (test ≡ by_itself holds) };

    ghost asks = { λ keep prev member kept after. CalledAt F.FnMut keep.test member kept after.test };

    fn keeps_first(&mut self, member: &V) -> bool {
        (self.test)(member)
    }

    fn keeps(&mut self, prev: &V, member: &V) -> bool {
        let _ = prev;
        (self.test)(member)
    }
}

/// The choice of `dedup_by`: it keeps each member that is not the same as the member that was kept last.
#[derive(Drop)]
pub(crate) struct Differs<F> {
    same: F,
}

impl<F> Differs<F> {
    /// Makes a choice that keeps each member that is not the same as the member that was kept last, by the test `same`.
    pub(crate) fn new(same: F) -> Differs<F>
        ensures { result.same ≡ same }
    {
        Differs { same }
    }
}

impl<V, F: FnMut(&V, &V) -> bool> Keeps<V> for Differs<F> {
    ghost ready = { λ keep. F.IsAlwaysCallable keep.same };

    ghost obeys = { λ keep test. (alike : V → V → Bool) × ComputesOnPairs F.FnMut alike keep.same × (test ≡ differs alike) };

    ghost asks = { λ keep prev member kept after. asks_two (CalledAtTwo F.FnMut) keep.same prev member kept after.same };

    fn keeps_first(&mut self, member: &V) -> bool {
        let _ = member;
        true
    }

    fn keeps(&mut self, prev: &V, member: &V) -> bool {
        !(self.same)(prev, member)
    }
}
