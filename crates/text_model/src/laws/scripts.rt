//! Laws over script texts.
ghost use Rattle.std.specs.Prelude.{◌≡◌, ℕ, ◌+◌, ◌^◌, ◌≤◌, ◌⊎◌, ◌↔◌, List, length, Ok, Err};
ghost use Rattle.std.specs.List.{enumerate_from};
ghost use Rattle.text_model.specs.ScriptLines.{LineFault};
ghost use Rattle.text_model.specs.Script.{Command, Script, ParsesScript, FirstScriptFault, AddsStartZero, command_of};
ghost use Rattle.text_model.specs.Script.{command_in, header_settings, SpellsCommand};
ghost use Rattle.text_model.specs.ScriptLimits.{IsCommandWithin, IsWithinLimits};
ghost use Rattle.text_model.specs.ScriptWriting.{command_text, script_text};
ghost use Rattle.text_model.specs.ScriptReading.{script_in};

/// The plain reader answers a script exactly if the text spells it.
pub fn script_is_read()
    ensures { (text : List ℕ) (script : Script) → (ParsesScript text script ↔ (script_in text ≡ Ok script)) }
{}

/// The plain reader answers a fault and its line exactly if that is the first fault of the text.
pub fn script_fault_is_read()
    ensures { (text : List ℕ) (number : ℕ) (fault : LineFault) →
        (FirstScriptFault text number fault ↔ (script_in text ≡ Err (number, fault))) }
{}

/// A text spells a script or has a first fault, and never both.
pub fn script_or_fault()
    ensures some { (text : List ℕ) →
        ((script : Script) × ParsesScript text script)
        ⊎ ((number : ℕ) × (fault : LineFault) × FirstScriptFault text number fault) }
    ensures not_both { (text : List ℕ) (script : Script) (number : ℕ) (fault : LineFault) →
        ParsesScript text script → FirstScriptFault text number fault → ⊥ }
{}

/// A text spells one script at most, and has one first fault at most.
pub fn one_script()
    ensures script { (text : List ℕ) (one other : Script) →
        ParsesScript text one → ParsesScript text other → one ≡ other }
    ensures fault { (text : List ℕ) (one other : ℕ) (fault another : LineFault) →
        FirstScriptFault text one fault → FirstScriptFault text other another →
        (one ≡ other) × (fault ≡ another) }
{}

/// A script that a text spells is within its limits, and so is each of its commands: a replay needs to check none
/// again.
pub fn parsed_scripts_are_within_limits()
    ensures { (text : List ℕ) (script : Script) → ParsesScript text script → IsWithinLimits script }
{}

/// Fields are read as a command exactly if they spell it.
pub fn command_is_spelled()
    ensures { (cpus collectors : ℕ) (fields : List (List ℕ)) (command : Command) →
        ((command_of cpus collectors fields ≡ Ok command)
        ↔ SpellsCommand cpus collectors command fields) }
{}

/// The line that is written of a command within its limits reads back as the command.
pub fn command_reads_back()
    ensures { (cpus collectors : ℕ) (command : Command) → cpus ≤ 2 ^ 64 → collectors ≤ 2 ^ 64 →
        IsCommandWithin cpus collectors command →
        command_in cpus collectors (command_text command) ≡ Ok command }
{}

/// What is written of a script within its limits, whose commands are in the lines directly after the start line, reads
/// back as the script.
pub fn script_reads_back()
    ensures { (script : Script) (commands : List Command) → IsWithinLimits script →
        script.commands ≡ enumerate_from (length header_settings + 2) commands →
        ParsesScript (script_text script) script }
{}

/// A text without a start line means the same as with `start 0` in its place: the same script, or the same fault.
pub fn start_zero_is_meant()
    ensures script { (text other : List ℕ) (script : Script) → AddsStartZero text other →
        (ParsesScript text script ↔ ParsesScript other script) }
    ensures fault { (text other : List ℕ) (number : ℕ) (fault : LineFault) → AddsStartZero text other →
        (FirstScriptFault text number fault ↔ FirstScriptFault other number fault) }
{}
