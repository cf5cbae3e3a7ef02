//! The value of the usage line, and which options are known.
ghost use Rattle.std.specs.Prelude.{◌≡◌, ◌++◌, codes, true};
ghost use Rattle.std.specs.List.{list_all};
ghost use Rattle.command_line.specs.Causes.{is_known_shape};
ghost use Rattle.command_line.specs.CommandLine.{command_line};

use crate::usage::USAGE_LINE;

/// The usage line is the one that is stated here.
pub fn usage_line_is()
    ensures { USAGE_LINE.now ≡ codes "usage: tracering replay [--log] | run | dump | steps"
        ++ codes " | collect [--page BYTES] [--names] [--fields] [--formats DIR] [--tasks] [--tasks-from FILE]"
        ++ codes " [--symbols] [--symbols-from FILE] [--instance NAME] [--cpu LIST] [--since MOMENT] [--until MOMENT]"
        ++ codes " [--event GLOB] [--pid LIST] [--json] [--keep KEPT] [--parcels] [--follow] [--round MS]"
        ++ codes " FILE.."
        ++ codes " | recover [--json] [--keep KEPT] FILE.." }
{}

/// Each command and option of the parse is known where the cause of a refused command line is looked for.
pub fn options_are_known()
    ensures { list_all is_known_shape command_line.subs ≡ true }
{}
