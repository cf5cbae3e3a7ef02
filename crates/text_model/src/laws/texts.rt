//! Laws over numbers and bytes as text.
ghost use Rattle.std.specs.Prelude.{◌≡◌, ℕ, ◌^◌, ◌<◌, List, Ok, All, decimal};
ghost use Rattle.text_model.specs.Text.{hex_text};
ghost use Rattle.text_model.specs.ScriptLines.{decimal_in, payload_in};

/// The decimal text of a number below 2^64 reads back as the number.
pub fn number_reads_back()
    ensures { (n : ℕ) → n < 2 ^ 64 → decimal_in (decimal n) ≡ Ok n }
{}

/// The hexadecimal text of bytes reads back as the bytes.
pub fn payload_reads_back()
    ensures { (bytes : List ℕ) → All (λ byte. byte < 256) bytes →
        payload_in (hex_text bytes) ≡ Ok bytes }
{}
