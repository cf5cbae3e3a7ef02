//! That a text has one output.
ghost use Rattle.std.specs.Prelude.{◌≡◌, ℕ, List};
ghost use Rattle.step_text.specs.Steps.{StepsGives};

/// What `steps` may print for a text is one output: the same bytes, with the same exit status.
pub fn one_output()
    ensures { (text bytes others : List ℕ) (status other : ℕ) →
        StepsGives text bytes status → StepsGives text others other → (bytes ≡ others) × (status ≡ other) }
{}
