//! What is printed of a world, by its texts.
ghost use Rattle.std.specs.Prelude.{◌≡◌, ℕ, ◌++◌, List, [], ◌∷◌, true, false, flat_map, codes, decimal};
ghost use Rattle.text_model.specs.Text.{hex_text};
ghost use Rattle.text_model.specs.Log.{LogLine};
ghost use Rattle.text_model.specs.Printing.{printed_log_line};
ghost use Rattle.world_model.specs.Printing.{Shown, printed_line, printed_missing, printed_runs, printed_collector};
ghost use Rattle.world_model.specs.Printing.{printed_world};

/// The lines of a collector, and what a replay prints (its log, if it is asked for, and its collectors in their order),
/// are the texts that are stated here.
pub fn printed_texts_are()
    ensures line { (moment cpu number : ℕ) (bytes : List ℕ) →
        printed_line (record { moment = moment; cpu = cpu; number = number; bytes = bytes })
        ≡ decimal cpu ++ codes " " ++ decimal number ++ codes " " ++ decimal moment ++ codes " " ++ hex_text bytes
        ++ 10 ∷ [] }
    ensures missing { (cpu first last : ℕ) → printed_missing cpu (first, last)
        ≡ codes "missing " ++ decimal cpu ++ codes " " ++ decimal first ++ codes "-" ++ decimal last ++ 10 ∷ [] }
    ensures runs { (one other : List (ℕ × ℕ)) → printed_runs (one ∷ other ∷ [])
        ≡ flat_map (printed_missing 0) one ++ (flat_map (printed_missing 1) other ++ []) }
    ensures collector { (collector : ℕ) (shown : Shown) → printed_collector collector shown
        ≡ codes "collector " ++ decimal collector ++ 10 ∷ flat_map printed_line shown.lines
        ++ printed_runs shown.runs }
    ensures world { (log : List LogLine) (one other : Shown) → printed_world false log (one ∷ other ∷ [])
        ≡ printed_collector 0 one ++ (printed_collector 1 other ++ []) }
    ensures logged { (log : List LogLine) → printed_world true log [] ≡ flat_map printed_log_line log ++ [] }
{}
