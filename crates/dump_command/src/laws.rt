//! That a text has one output.
ghost use Rattle.std.specs.Prelude.{◌≡◌, ℕ, List};
ghost use Rattle.dump_command.specs.Dumps.{DumpGives};

/// What `dump` may print for a text is one output: the same bytes, with the same exit status.
pub fn one_output()
    ensures { (text bytes others : List ℕ) (status other : ℕ) →
        DumpGives text bytes status → DumpGives text others other →
        (bytes ≡ others) × (status ≡ other) }
{}
