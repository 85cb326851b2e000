//! The table of the command line for `clap`: the program, its subcommands and their options, with their help texts.

use crate::image_kind::KIND_NAMES;
use clap::builder::ValueParser;

/// An option of a subcommand, `--NAME`.
pub(crate) struct OptionRow<'a> {
    pub(crate) name: &'a str,
    pub(crate) help: &'a str,
    /// The name of the value in the help text, and the values that are accepted. None for a flag.
    pub(crate) value: Option<(&'a str, ValueParser<'a>)>,
}

/// A command: the program, or a subcommand with its options.
pub(crate) struct CommandRow<'a> {
    pub(crate) name: &'a str,
    pub(crate) about: &'a str,
    /// The end of its help text.
    pub(crate) after_help: &'a str,
    pub(crate) options: &'a [OptionRow<'a>],
}

/// The description of the program.
const ABOUT_PROGRAM: &str =
    "An instruction-exact bench for a RISC-V hart, or for two under its monitor, driven by a script of commands";

/// The description of `run`.
const ABOUT_RUN: &str =
    "Read an image in hexadecimal, a line -- and a script, and write the replies (the default)";

/// The description of `twin`.
const ABOUT_TWIN: &str =
    "Give a script to two monitored benches that differ in one enclave alone, and write the replies of both";

/// The end of the program's help text: an example.
const FIRST_EXAMPLE: &str =
    "Example: one instruction, addi x1, x0, -1, and a script of two commands:\n  \
    printf '9300f0ff\\n--\\nstep 1\\nreg 1\\n' | rvbench";

/// The end of the help text of `run`: an example, and the commands of a script.
const FIRST_SCRIPT: &str =
    "Example: a loop of two instructions, sw x1, 0(x2) and a jump back, under a watch:\n  \
    printf '232011006ff0dfff\\n--\\nsetreg 2 80000100\\nwatch 80000102\\nrun 9\\nregs\\n' | rvbench run\n\n\
    Commands of a script, one a line; docs/COMMANDS.md tells their operands and replies:\n  \
    step N                   do N steps\n  \
    run N                    do N steps, or fewer, where a break or a watch ends them\n  \
    break A, clear A         set or clear a break, an address where a run stops\n  \
    watch A, unwatch A       set or clear a watch, a byte whose load or store stops a run\n  \
    reg N, regs, setreg N V  show a register, show all and pc, write a register\n  \
    csr C, timer on|off      show a control and status register, set the timer line\n  \
    mem A N, poke A V        show bytes of memory, write one\n  \
    dis A                    show the word at an address and its instruction\n  \
    pmp, access M K A L      show the PMP entries, judge an access by them\n  \
    enclaves                 show the live enclaves\n  \
    hart H, sched W          choose the hart that is meant, step the harts in a given order";

/// The end of the help text of `twin`: its input and output, and an example.
const FIRST_TWIN: &str =
    "The input is an image, a line --, a script for both benches, a line --, and a script that both answer. Between the scripts\n\
    the enclave of the second bench is made another. Replies are written after a: and b:, and end where the enclave is entered.\n\n\
    Example: a host creates an enclave, both hosts destroy theirs, and both find its region cleared:\n  \
    printf '7300000073000000\\n--\\nsetreg 17 0a454e43\\nsetreg 16 1\\nsetreg 10 80020000\\nsetreg 11 1000\\n\
    setreg 14 80020000\\nstep 1\\n--\\nsetreg 16 2\\nsetreg 10 0\\nstep 1\\nmem 80020000 4\\n' | rvbench twin";

/// The end of the help text of `asm`: an example.
const FIRST_SOURCE: &str = "Example: a loop of two instructions:\n  \
    printf 'loop: addi x1, x1, -1\\n bne x1, x0, loop\\n' | rvbench asm";

/// The end of the help text of `dis`: an example.
const FIRST_IMAGE: &str = "Example: the word ffff0093, lowest byte first:\n  \
    printf '9300f0ff\\n' | rvbench dis";

/// The help text of `--kind`.
const HELP_OF_KIND: &str =
    "How the image is read; auto: as ELF where its first bytes are 7F 45 4C 46, else raw [default: auto]";

/// The help text of `--ram`.
const HELP_OF_RAM: &str =
    "The size of the RAM, a multiple of 65536, from 65536 to 16777216 [default: 1048576]";

/// The help text of `--slot`.
const HELP_OF_SLOT: &str =
    "The slot of the enclave in which the two benches differ, from 0 to 12 [default: 0]";

/// `--kind`. The default is that of `Setup::default`.
const KIND: OptionRow<'_> = OptionRow {
    name: "kind",
    help: HELP_OF_KIND,
    value: Some(("KIND", ValueParser::Names(KIND_NAMES))),
};

/// `--ram`. The default is that of `Setup::default`.
const RAM: OptionRow<'_> = OptionRow {
    name: "ram",
    help: HELP_OF_RAM,
    value: Some(("BYTES", ValueParser::Signed(0, 4_294_967_295))),
};

/// `--monitor`. The default is that of `Setup::default`.
const MONITOR: OptionRow<'_> = OptionRow {
    name: "monitor",
    help: "Run the image as the host above the monitor, from 80010000 on and in mode S",
    value: None,
};

/// `--slot`. The default is slot 0.
const SLOT: OptionRow<'_> = OptionRow {
    name: "slot",
    help: HELP_OF_SLOT,
    value: Some(("K", ValueParser::Signed(0, 12))),
};

/// The value of `--harts`. The default is that of `Setup::default`.
const HARTS: Option<(&str, ValueParser<'_>)> = Some(("HARTS", ValueParser::Signed(1, 2)));

/// `--harts` of `run`.
const HARTS_OF_RUN: OptionRow<'_> = OptionRow {
    name: "harts",
    help: "The number of harts, 1 or 2; 2 harts need --monitor [default: 1]",
    value: HARTS,
};

/// `--harts` of `twin`.
const HARTS_OF_TWIN: OptionRow<'_> = OptionRow {
    name: "harts",
    help: "The number of harts of each bench, 1 or 2 [default: 1]",
    value: HARTS,
};

/// The program.
pub(crate) const PROGRAM: &CommandRow<'_> = &CommandRow {
    name: "rvbench",
    about: ABOUT_PROGRAM,
    after_help: FIRST_EXAMPLE,
    options: &[],
};

/// The subcommands, in the order in which the help text lists them.
pub(crate) const SUBCOMMANDS: &[CommandRow<'_>] = &[
    CommandRow {
        name: "run",
        about: ABOUT_RUN,
        after_help: FIRST_SCRIPT,
        options: &[KIND, RAM, MONITOR, HARTS_OF_RUN],
    },
    CommandRow {
        name: "twin",
        about: ABOUT_TWIN,
        after_help: FIRST_TWIN,
        options: &[SLOT, KIND, RAM, HARTS_OF_TWIN],
    },
    CommandRow {
        name: "asm",
        about: "Read lines of assembly, and write the image in hexadecimal",
        after_help: FIRST_SOURCE,
        options: &[],
    },
    CommandRow {
        name: "dis",
        about: "Read an image in hexadecimal, and write its lines of assembly",
        after_help: FIRST_IMAGE,
        options: &[],
    },
];
