//! The limits and the fixed words of scripts, by their values.
ghost use Rattle.std.specs.Prelude.{◌≡◌, ℕ, ◌-◌, ◌++◌, [], ◌∷◌, codes, decimal};
ghost use Rattle.text_model.specs.ScriptLines.{bad_line, bad_number, bad_hex, out_of_range, pages_setting};
ghost use Rattle.text_model.specs.ScriptLines.{size_setting, fault_text};
ghost use Rattle.text_model.specs.Script.{cpus_setting, collectors_setting, header_settings, start_setting};

use crate::script_limits::{
    MAX_LINE_STEPS, MAX_NUMBER_DIGITS, MAX_SCRIPT_COLLECTORS, MAX_SCRIPT_CPUS, MIN_LINE_STEPS,
    MIN_SCRIPT_COLLECTORS, MIN_SCRIPT_CPUS, SIZE_STEP,
};

/// Each limit of a script and of its numbers has the value that is stated here.
pub fn constants_are()
    ensures digits { MAX_NUMBER_DIGITS ≡ 20 }
    ensures size_step { SIZE_STEP ≡ 4 }
    ensures min_cpus { MIN_SCRIPT_CPUS ≡ 1 }
    ensures max_cpus { MAX_SCRIPT_CPUS ≡ 256 }
    ensures min_collectors { MIN_SCRIPT_COLLECTORS ≡ 1 }
    ensures max_collectors { MAX_SCRIPT_COLLECTORS ≡ 16 }
    ensures min_steps { MIN_LINE_STEPS ≡ 1 }
    ensures max_steps { MAX_LINE_STEPS ≡ 1000000 }
{}

/// The header has these lines in this order, each with its word and its range, as they are stated here.
pub fn header_is()
    ensures order { header_settings ≡ pages_setting ∷ size_setting ∷ cpus_setting ∷ collectors_setting ∷ [] }
    ensures pages { pages_setting ≡ record { word = codes "pages"; min = 2; max = 1024; step = 1 } }
    ensures size { size_setting ≡ record { word = codes "size"; min = 32; max = 65520; step = 4 } }
    ensures cpus { cpus_setting ≡ record { word = codes "cpus"; min = 1; max = 256; step = 1 } }
    ensures collectors { collectors_setting ≡ record { word = codes "collectors"; min = 1; max = 16; step = 1 } }
    ensures start { (pages : ℕ) → start_setting pages
        ≡ record { word = codes "start"; min = 0; max = 281474976710655 - pages; step = 1 } }
{}

/// A fault of a line is printed as the line's number and the fault's name.
pub fn fault_texts_are()
    ensures line { (n : ℕ) → fault_text n bad_line ≡ codes "line " ++ decimal n ++ codes ": BadLine" }
    ensures number { (n : ℕ) → fault_text n bad_number ≡ codes "line " ++ decimal n ++ codes ": BadNumber" }
    ensures hex { (n : ℕ) → fault_text n bad_hex ≡ codes "line " ++ decimal n ++ codes ": BadHex" }
    ensures range { (n : ℕ) → fault_text n out_of_range ≡ codes "line " ++ decimal n ++ codes ": OutOfRange" }
{}
