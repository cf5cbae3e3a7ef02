//! How the program is called.

/// The line of standard error for a command line that can't be read.
pub const USAGE_LINE: &str = concat!(
    "usage: tracering replay [--log] | run | dump | steps",
    " | collect [--page BYTES] [--names] [--fields] [--formats DIR] [--tasks] [--tasks-from FILE] [--symbols]",
    " [--symbols-from FILE] [--instance NAME] [--cpu LIST] [--since MOMENT] [--until MOMENT] [--event GLOB]",
    " [--pid LIST] [--json] [--keep KEPT] [--parcels] [--follow] [--round MS] FILE..",
    " | recover [--json] [--keep KEPT] FILE..",
);

/// What `--help` prints. `tests/sources/usage` compares its commands and options with those of [`USAGE_LINE`].
pub const HELP: &str = "\
usage: tracering COMMAND [OPTION].. [FILE]..

  replay             carry out a script, print what collectors have and miss
      --log          print before that what the script's commands met
  run                carry out the writers' lines of a script in threads
  dump               print the records of a page image
  steps              carry out a script, print each step of each ring
  collect FILE..     list by time what a kernel wrote, or what streams have
      --page BYTES   the size of a raw page, 48 to 65552 (4096)
      --names        print the process and the event of each record
      --fields       print the fields of each event; asks for names too
      --formats DIR  the formats of events below this folder; asks for names too
      --tasks        print the name of each process; asks for names too
      --tasks-from FILE    the same, also by this file (a saved_cmdlines)
      --symbols      print the names of functions; asks for fields too
      --symbols-from FILE  the same, also by this file (a kallsyms)
      --instance NAME      list this trace buffer of a trace.dat
      --cpu LIST     list these CPUs alone, as 0,2-4
      --since MOMENT list what was at this moment or later
      --until MOMENT list what was at this moment or earlier
      --event GLOB   list the events of this name or SYSTEM:NAME alone; * stands
                     for any bytes, and ? for one
      --pid LIST     list these processes alone, as 1,42
      --json         print each line as an object
      --keep KEPT    write the pieces of streams that are new to this file
      --parcels      print a line for each piece of the streams instead
      --follow       read the files while they are written, and print a line as
                     soon as it is final
      --round MS     how long a round of --follow is, 1 to 60000 (500)
  recover FILE..     list by time what rings left in regions
      --json         print each line as an object
      --keep KEPT    write what is new to this file, as a stream
  --version          print the version
  -h, --help         print this

replay, run and steps read a script on standard input, and dump a page image. A
FILE of collect has raw pages of a CPU (CPU=PATH states which), or is a
trace.dat or a stream; a FILE of recover is a region. The FILE - is standard
input.

Exit status: 0 done; 1 the input is refused, or a part of it is damaged; 2 the
command line is refused; 3 memory was refused; 4 a read, a write or the start of
a thread failed.

The manual page tracering(1), man/tracering.1 in the sources, has the rest.
";
