//! Tests of the command line, argument by argument.
use rv_command_line::{Harts, ImageKind, Job, Setup, WordsFault, read_words};
use std::alloc::Global;
use std::process::Abort;

/// The result of reading arguments, without the text of help.
#[derive(Clone, Copy, Debug, PartialEq, Eq)]
enum Answer {
    Named(Job),
    Refused,
    Help,
}

/// Reads arguments, and returns the result. Exhausted memory fails the test.
fn answer_to(rt: &impl Abort, alloc: Global, words: &[&str]) -> Answer {
    match read_words(alloc, words) {
        Ok(job) => Answer::Named(job),
        Err(WordsFault::Refused) => Answer::Refused,
        Err(WordsFault::Help(_)) => Answer::Help,
        Err(WordsFault::NoMemory) => panic!(rt; "memory"),
    }
}

/// Expects this result for arguments. The assertion is in a function of its own, because it would lengthen the proof of each test.
fn expect_answer(rt: &impl Abort, alloc: Global, words: &[&str], wanted: Answer) {
    let answer = answer_to(rt, alloc, &*words);
    let last = words.last().copied().unwrap_or("");
    assert_eq!(rt; answer, wanted, "at {last}");
}

/// Expects that each list of arguments is refused.
fn expect_refusals(rt: &impl Abort, alloc: Global, cases: &[&[&str]]) {
    for words in cases {
        expect_answer(rt, alloc, words, Answer::Refused);
    }
}

/// Returns the help text for arguments that ask for help.
fn help(rt: &impl Abort, alloc: Global, words: &[&str]) -> String {
    match read_words(alloc, words) {
        Err(WordsFault::Help(text)) => text,
        _ => panic!(rt; "no help"),
    }
}

/// Expects that arguments ask for a help text with these parts.
fn expect_help(rt: &impl Abort, alloc: Global, words: &[&str], parts: &[&str]) {
    let text = help(rt, alloc, words);
    for part in parts {
        assert!(rt; text.contains(*part), "at {part}");
    }
}

/// The size of RAM in bytes if the arguments do not name one.
const DEFAULT_RAM: u32 = 1_048_576;

/// The field `monitored` of a run without the monitor.
const BARE: bool = false;

/// The field `monitored` of a run under the monitor.
const MONITORED: bool = true;

/// Arguments of a run, and its image format, the size of its RAM in bytes, and whether it has the monitor.
type RunRow = (&'static [&'static str], ImageKind, u32, bool);

/// Expects that each list of arguments gives its run.
fn expect_runs(rt: &impl Abort, alloc: Global, rows: &[RunRow]) {
    for (words, kind, ram, monitored) in rows {
        let setup = Setup {
            kind: *kind,
            ram: *ram,
            monitored: *monitored,
            harts: Harts::One,
        };
        expect_answer(rt, alloc, words, Answer::Named(Job::Run(setup)));
    }
}

/// The rows of the test `names_jobs`.
const NAMES_JOBS: &[RunRow] = &[
    (&[], ImageKind::Auto, DEFAULT_RAM, BARE),
    (&["rvbench"], ImageKind::Auto, DEFAULT_RAM, BARE),
    (&["rvbench", "run"], ImageKind::Auto, DEFAULT_RAM, BARE),
    (
        &["rvbench", "run", "--ram", "65536"],
        ImageKind::Auto,
        65_536,
        BARE,
    ),
    (
        &["rvbench", "run", "--ram=65536"],
        ImageKind::Auto,
        65_536,
        BARE,
    ),
    (&["rvbench", "run", "--ram", "0"], ImageKind::Auto, 0, BARE),
    (
        &["rvbench", "run", "--ram", "4294967295"],
        ImageKind::Auto,
        4_294_967_295,
        BARE,
    ),
    (
        &["rvbench", "run", "--ram", "+65537"],
        ImageKind::Auto,
        65_537,
        BARE,
    ),
    (
        &["rvbench", "run", "--ram", "0065537"],
        ImageKind::Auto,
        65_537,
        BARE,
    ),
];

#[test]
fn names_jobs(rt: HostRuntime) {
    expect_runs(&rt, rt.alloc(), NAMES_JOBS);
    let asm = Answer::Named(Job::Asm);
    expect_answer(&rt, rt.alloc(), &["rvbench", "asm"], asm);
    let dis = Answer::Named(Job::Dis);
    expect_answer(&rt, rt.alloc(), &["rvbench", "dis"], dis);
    expect_answer(&rt, rt.alloc(), &["./another/name", "dis"], dis);
}

/// The rows of the test `names_kinds`.
const NAMES_KINDS: &[RunRow] = &[
    (
        &["rvbench", "run", "--kind", "auto"],
        ImageKind::Auto,
        DEFAULT_RAM,
        BARE,
    ),
    (
        &["rvbench", "run", "--kind=auto"],
        ImageKind::Auto,
        DEFAULT_RAM,
        BARE,
    ),
    (
        &["rvbench", "run", "--kind", "auto", "--ram", "65536"],
        ImageKind::Auto,
        65_536,
        BARE,
    ),
    (
        &["rvbench", "run", "--ram", "65536", "--kind", "auto"],
        ImageKind::Auto,
        65_536,
        BARE,
    ),
    (
        &["rvbench", "run", "--kind=auto", "--ram=65536"],
        ImageKind::Auto,
        65_536,
        BARE,
    ),
    (
        &["rvbench", "run", "--ram=65536", "--kind=auto"],
        ImageKind::Auto,
        65_536,
        BARE,
    ),
    (
        &["rvbench", "run", "--kind", "raw"],
        ImageKind::Raw,
        DEFAULT_RAM,
        BARE,
    ),
    (
        &["rvbench", "run", "--kind=raw"],
        ImageKind::Raw,
        DEFAULT_RAM,
        BARE,
    ),
    (
        &["rvbench", "run", "--kind", "raw", "--ram", "65536"],
        ImageKind::Raw,
        65_536,
        BARE,
    ),
    (
        &["rvbench", "run", "--ram", "65536", "--kind", "raw"],
        ImageKind::Raw,
        65_536,
        BARE,
    ),
    (
        &["rvbench", "run", "--kind=raw", "--ram=65536"],
        ImageKind::Raw,
        65_536,
        BARE,
    ),
    (
        &["rvbench", "run", "--ram=65536", "--kind=raw"],
        ImageKind::Raw,
        65_536,
        BARE,
    ),
    (
        &["rvbench", "run", "--kind", "elf"],
        ImageKind::Elf,
        DEFAULT_RAM,
        BARE,
    ),
    (
        &["rvbench", "run", "--kind=elf"],
        ImageKind::Elf,
        DEFAULT_RAM,
        BARE,
    ),
    (
        &["rvbench", "run", "--kind", "elf", "--ram", "65536"],
        ImageKind::Elf,
        65_536,
        BARE,
    ),
    (
        &["rvbench", "run", "--ram", "65536", "--kind", "elf"],
        ImageKind::Elf,
        65_536,
        BARE,
    ),
    (
        &["rvbench", "run", "--kind=elf", "--ram=65536"],
        ImageKind::Elf,
        65_536,
        BARE,
    ),
    (
        &["rvbench", "run", "--ram=65536", "--kind=elf"],
        ImageKind::Elf,
        65_536,
        BARE,
    ),
];

#[test]
fn names_kinds(rt: HostRuntime) {
    expect_runs(&rt, rt.alloc(), NAMES_KINDS);
}

/// The rows of the test `names_the_monitor`.
const NAMES_THE_MONITOR: &[RunRow] = &[
    (
        &["rvbench", "run", "--monitor"],
        ImageKind::Auto,
        DEFAULT_RAM,
        MONITORED,
    ),
    (
        &["rvbench", "run", "--monitor", "--ram", "65536"],
        ImageKind::Auto,
        65_536,
        MONITORED,
    ),
    (
        &["rvbench", "run", "--ram=65536", "--monitor"],
        ImageKind::Auto,
        65_536,
        MONITORED,
    ),
    (
        &["rvbench", "run", "--kind", "elf", "--monitor"],
        ImageKind::Elf,
        DEFAULT_RAM,
        MONITORED,
    ),
    (
        &["rvbench", "run", "--monitor", "--kind=raw"],
        ImageKind::Raw,
        DEFAULT_RAM,
        MONITORED,
    ),
    (
        &["rvbench", "run", "--kind", "raw", "--monitor", "--ram", "0"],
        ImageKind::Raw,
        0,
        MONITORED,
    ),
    (
        &["rvbench", "run", "--ram", "0", "--kind", "raw"],
        ImageKind::Raw,
        0,
        BARE,
    ),
];

#[test]
fn names_the_monitor(rt: HostRuntime) {
    expect_runs(&rt, rt.alloc(), NAMES_THE_MONITOR);
}

/// The inputs of the test `refuses_the_monitor`.
const REFUSES_THE_MONITOR: &[&[&str]] = &[
    &["rvbench", "--monitor"],
    &["rvbench", "--monitor", "run"],
    &["rvbench", "run", "--monitor", "--monitor"],
    &["rvbench", "run", "--monitor", "--ram", "65536", "--monitor"],
    &["rvbench", "run", "--monitor="],
    &["rvbench", "run", "--monitor=true"],
    &["rvbench", "run", "--monitor=false"],
    &["rvbench", "run", "--monitor", "true"],
    &["rvbench", "run", "--monitor", "false"],
    &["rvbench", "run", "--monito"],
    &["rvbench", "run", "--monitored"],
    &["rvbench", "run", "--Monitor"],
    &["rvbench", "run", "--no-monitor"],
    &["rvbench", "run", "-m"],
    &["rvbench", "run", "monitor"],
    &["rvbench", "run", "--", "--monitor"],
    &["rvbench", "run", "--ram", "--monitor"],
    &["rvbench", "run", "--kind", "--monitor"],
    &["rvbench", "asm", "--monitor"],
    &["rvbench", "dis", "--monitor"],
];

/// `--monitor` is an option of `run` alone, is given once with its whole name, and takes no value.
#[test]
fn refuses_the_monitor(rt: HostRuntime) {
    expect_refusals(&rt, rt.alloc(), REFUSES_THE_MONITOR);
}

/// Arguments of a twin run, and its image format, the size of its RAM in bytes, and the slot of the enclave that differs.
type TwinRow = (&'static [&'static str], ImageKind, u32, u8);

/// The rows of the test `names_twins`.
const NAMES_TWINS: &[TwinRow] = &[
    (&["rvbench", "twin"], ImageKind::Auto, DEFAULT_RAM, 0),
    (
        &["rvbench", "twin", "--slot", "0"],
        ImageKind::Auto,
        DEFAULT_RAM,
        0,
    ),
    (
        &["rvbench", "twin", "--slot", "1"],
        ImageKind::Auto,
        DEFAULT_RAM,
        1,
    ),
    (
        &["rvbench", "twin", "--slot=12"],
        ImageKind::Auto,
        DEFAULT_RAM,
        12,
    ),
    (
        &["rvbench", "twin", "--slot", "+7"],
        ImageKind::Auto,
        DEFAULT_RAM,
        7,
    ),
    (
        &["rvbench", "twin", "--slot", "0012"],
        ImageKind::Auto,
        DEFAULT_RAM,
        12,
    ),
    (
        &["rvbench", "twin", "--ram", "65536"],
        ImageKind::Auto,
        65_536,
        0,
    ),
    (
        &["rvbench", "twin", "--ram", "4294967295", "--slot", "3"],
        ImageKind::Auto,
        4_294_967_295,
        3,
    ),
    (
        &["rvbench", "twin", "--kind", "elf"],
        ImageKind::Elf,
        DEFAULT_RAM,
        0,
    ),
    (
        &["rvbench", "twin", "--kind=raw", "--slot=5", "--ram=0"],
        ImageKind::Raw,
        0,
        5,
    ),
    (
        &[
            "rvbench", "twin", "--slot", "5", "--ram", "0", "--kind", "raw",
        ],
        ImageKind::Raw,
        0,
        5,
    ),
    (
        &["./another/name", "twin", "--slot", "2"],
        ImageKind::Auto,
        DEFAULT_RAM,
        2,
    ),
];

#[test]
fn names_twins(rt: HostRuntime) {
    for (words, kind, ram, slot) in NAMES_TWINS {
        let setup = Setup {
            kind: *kind,
            ram: *ram,
            monitored: MONITORED,
            harts: Harts::One,
        };
        let twin = Answer::Named(Job::Twin(setup, *slot));
        expect_answer(&rt, rt.alloc(), words, twin);
    }
}

/// The inputs of the test `refuses_twins`.
const REFUSES_TWINS: &[&[&str]] = &[
    &["rvbench", "twin", "--slot"],
    &["rvbench", "twin", "--slot="],
    &["rvbench", "twin", "--slot", ""],
    &["rvbench", "twin", "--slot", "13"],
    &["rvbench", "twin", "--slot", "255"],
    &["rvbench", "twin", "--slot", "256"],
    &["rvbench", "twin", "--slot", "18446744073709551616"],
    &["rvbench", "twin", "--slot", "-1"],
    &["rvbench", "twin", "--slot=-1"],
    &["rvbench", "twin", "--slot", "x"],
    &["rvbench", "twin", "--slot", "0x1"],
    &["rvbench", "twin", "--slot", " 1"],
    &["rvbench", "twin", "--slot", "1", "1"],
    &["rvbench", "twin", "--slot", "1", "--slot", "1"],
    &["rvbench", "twin", "--slot=1", "--slot=2"],
    &["rvbench", "twin", "-s", "1"],
    &["rvbench", "twin", "--slo", "1"],
    &["rvbench", "twin", "--monitor"],
    &["rvbench", "twin", "--slot", "1", "--monitor"],
    &["rvbench", "twin", "--ram", "65536", "--ram", "65536"],
    &["rvbench", "twin", "--ram", "4294967296"],
    &["rvbench", "twin", "--kind", "x"],
    &["rvbench", "twin", "--kind", "raw", "--kind", "raw"],
    &["rvbench", "twin", "twin"],
    &["rvbench", "twin", "1"],
    &["rvbench", "--slot", "1"],
    &["rvbench", "--slot", "1", "twin"],
    &["rvbench", "run", "--slot", "1"],
    &["rvbench", "asm", "--slot", "1"],
    &["rvbench", "TWIN"],
];

/// The options of `twin` follow it, each once. `twin` has no `--monitor`, and `run` has no `--slot`.
#[test]
fn refuses_twins(rt: HostRuntime) {
    expect_refusals(&rt, rt.alloc(), REFUSES_TWINS);
}

/// Arguments of a bench, and the number of its harts, whether it has the monitor, and the slot of a twin run. Other values are the defaults.
type HartsRow = (&'static [&'static str], Harts, bool, Option<u8>);

/// The rows of the test `names_harts`.
const NAMES_HARTS: &[HartsRow] = &[
    (&["rvbench", "run", "--harts", "1"], Harts::One, BARE, None),
    (&["rvbench", "run", "--harts=1"], Harts::One, BARE, None),
    (&["rvbench", "run", "--harts", "01"], Harts::One, BARE, None),
    (
        &["rvbench", "run", "--harts", "1", "--monitor"],
        Harts::One,
        MONITORED,
        None,
    ),
    (
        &["rvbench", "run", "--harts", "2", "--monitor"],
        Harts::Two,
        MONITORED,
        None,
    ),
    (
        &["rvbench", "run", "--monitor", "--harts", "2"],
        Harts::Two,
        MONITORED,
        None,
    ),
    (
        &["rvbench", "run", "--monitor", "--harts=2"],
        Harts::Two,
        MONITORED,
        None,
    ),
    (
        &["rvbench", "run", "--monitor", "--harts", "+2"],
        Harts::Two,
        MONITORED,
        None,
    ),
    (
        &["rvbench", "run", "--monitor", "--harts", "002"],
        Harts::Two,
        MONITORED,
        None,
    ),
    (
        &[
            "rvbench",
            "run",
            "--harts",
            "2",
            "--kind",
            "auto",
            "--monitor",
            "--ram",
            "1048576",
        ],
        Harts::Two,
        MONITORED,
        None,
    ),
    (
        &["rvbench", "twin", "--harts", "1"],
        Harts::One,
        MONITORED,
        Some(0),
    ),
    (
        &["rvbench", "twin", "--harts", "2"],
        Harts::Two,
        MONITORED,
        Some(0),
    ),
    (
        &["rvbench", "twin", "--harts=2", "--slot", "3"],
        Harts::Two,
        MONITORED,
        Some(3),
    ),
    (
        &["rvbench", "twin", "--slot=12", "--harts", "2"],
        Harts::Two,
        MONITORED,
        Some(12),
    ),
];

#[test]
fn names_harts(rt: HostRuntime) {
    for (words, harts, monitored, slot) in NAMES_HARTS {
        let setup = Setup {
            monitored: *monitored,
            harts: *harts,
            ..Setup::default()
        };
        let job = match *slot {
            Some(slot) => Job::Twin(setup, slot),
            None => Job::Run(setup),
        };
        expect_answer(&rt, rt.alloc(), words, Answer::Named(job));
    }
}

/// The inputs of the test `refuses_two_harts_without_the_monitor`.
const REFUSES_TWO_HARTS: &[&[&str]] = &[
    &["rvbench", "run", "--harts", "2"],
    &["rvbench", "run", "--harts=2"],
    &["rvbench", "run", "--harts", "+2"],
    &["rvbench", "run", "--harts", "02"],
    &["rvbench", "run", "--harts", "2", "--ram", "65536"],
    &["rvbench", "run", "--kind", "raw", "--harts", "2"],
    &["./another/name", "run", "--harts", "2"],
];

/// Two harts require the monitor.
#[test]
fn refuses_two_harts_without_the_monitor(rt: HostRuntime) {
    expect_refusals(&rt, rt.alloc(), REFUSES_TWO_HARTS);
}

/// The inputs of the test `refuses_harts`.
const REFUSES_HARTS: &[&[&str]] = &[
    &["rvbench", "run", "--monitor", "--harts"],
    &["rvbench", "run", "--harts", "--monitor"],
    &["rvbench", "run", "--monitor", "--harts="],
    &["rvbench", "run", "--monitor", "--harts", ""],
    &["rvbench", "run", "--monitor", "--harts", "0"],
    &["rvbench", "run", "--monitor", "--harts", "3"],
    &["rvbench", "run", "--monitor", "--harts", "12"],
    &["rvbench", "run", "--monitor", "--harts", "257"],
    &["rvbench", "run", "--monitor", "--harts", "258"],
    &["rvbench", "run", "--monitor", "--harts", "-1"],
    &["rvbench", "run", "--monitor", "--harts=-2"],
    &["rvbench", "run", "--monitor", "--harts", "two"],
    &["rvbench", "run", "--monitor", "--harts", "0x2"],
    &["rvbench", "run", "--monitor", "--harts", " 2"],
    &["rvbench", "run", "--monitor", "--harts", "1", "2"],
    &[
        "rvbench",
        "run",
        "--monitor",
        "--harts",
        "2",
        "--harts",
        "2",
    ],
    &["rvbench", "run", "--harts=1", "--harts=1"],
    &["rvbench", "run", "--monitor", "--hart", "2"],
    &["rvbench", "run", "--monitor", "--Harts", "2"],
    &["rvbench", "run", "--monitor", "--", "--harts", "2"],
    &["rvbench", "--harts", "1"],
    &["rvbench", "--harts", "2", "run", "--monitor"],
    &["rvbench", "twin", "--harts", "0"],
    &["rvbench", "twin", "--harts", "3"],
    &["rvbench", "twin", "--harts", "1", "--harts", "2"],
    &["rvbench", "twin", "--harts", "2", "--monitor"],
    &["rvbench", "--harts", "2", "twin"],
    &["rvbench", "asm", "--harts", "1"],
    &["rvbench", "dis", "--harts", "1"],
];

/// `--harts` is given once, as an option of `run` or `twin`, with the value 1 or 2.
#[test]
fn refuses_harts(rt: HostRuntime) {
    expect_refusals(&rt, rt.alloc(), REFUSES_HARTS);
}

/// The inputs of the test `refuses_kinds`.
const REFUSES_KINDS: &[&[&str]] = &[
    &["rvbench", "run", "--kind"],
    &["rvbench", "run", "--kind="],
    &["rvbench", "run", "--kind", ""],
    &["rvbench", "run", "--kind", "x"],
    &["rvbench", "run", "--kind=x"],
    &["rvbench", "run", "--kind", "ELF"],
    &["rvbench", "run", "--kind", "Raw"],
    &["rvbench", "run", "--kind", "au"],
    &["rvbench", "run", "--kind", "autos"],
    &["rvbench", "run", "--kind", " raw"],
    &["rvbench", "run", "--kind", "--ram", "65536"],
    &["rvbench", "run", "--kind", "raw", "raw"],
    &["rvbench", "run", "--kind", "raw", "--kind", "raw"],
    &["rvbench", "run", "--kind=raw", "--kind=elf"],
    &["rvbench", "run", "-k", "raw"],
    &["rvbench", "run", "--kin", "raw"],
    &["rvbench", "run", "raw"],
    &["rvbench", "--kind", "raw"],
    &["rvbench", "asm", "--kind", "raw"],
    &["rvbench", "dis", "--kind=raw"],
];

#[test]
fn refuses_kinds(rt: HostRuntime) {
    expect_refusals(&rt, rt.alloc(), REFUSES_KINDS);
}

/// The inputs of the test `refuses_values`.
const REFUSES_VALUES: &[&[&str]] = &[
    &["rvbench", "run", "--ram"],
    &["rvbench", "run", "--ram="],
    &["rvbench", "run", "--ram", ""],
    &["rvbench", "run", "--ram", "x"],
    &["rvbench", "run", "--ram", "64k"],
    &["rvbench", "run", "--ram", "0x10000"],
    &["rvbench", "run", "--ram", " 65536"],
    &["rvbench", "run", "--ram", "-1"],
    &["rvbench", "run", "--ram=-1"],
    &["rvbench", "run", "--ram", "4294967296"],
    &["rvbench", "run", "--ram", "18446744073709617152"],
    &["rvbench", "run", "--ram", "65536", "65536"],
    &["rvbench", "run", "--ram", "65536", "--ram", "65536"],
    &["rvbench", "run", "--ram=65536", "--ram=131072"],
];

#[test]
fn refuses_values(rt: HostRuntime) {
    expect_refusals(&rt, rt.alloc(), REFUSES_VALUES);
}

/// The inputs of the test `refuses_other_words`.
const REFUSES_OTHER_WORDS: &[&[&str]] = &[
    &["rvbench", "fly"],
    &["rvbench", ""],
    &["rvbench", "RUN"],
    &["rvbench", "--ram", "65536"],
    &["rvbench", "--ram=65536", "run"],
    &["rvbench", "--kind=raw", "run"],
    &["rvbench", "--version"],
    &["rvbench", "-V"],
    &["rvbench", "--fly"],
    &["rvbench", "run", "run"],
    &["rvbench", "run", "--fly"],
    &["rvbench", "run", "--ra", "65536"],
    &["rvbench", "run", "-r", "65536"],
    &["rvbench", "run", "--", "--ram"],
    &["rvbench", "asm", "extra"],
    &["rvbench", "dis", "--ram", "65536"],
    &["rvbench", "help", "fly"],
];

#[test]
fn refuses_other_words(rt: HostRuntime) {
    expect_refusals(&rt, rt.alloc(), REFUSES_OTHER_WORDS);
}

/// The inputs of the test `gives_help`.
const GIVES_HELP: &[&[&str]] = &[
    &["rvbench", "--help"],
    &["rvbench", "-h"],
    &["rvbench", "help"],
    &["rvbench", "help", "help"],
    &["rvbench", "help", "run"],
    &["rvbench", "run", "--help"],
    &["rvbench", "run", "-h"],
    &["rvbench", "run", "--ram", "65536", "--help"],
    &["rvbench", "run", "--kind", "raw", "--help"],
    &["rvbench", "run", "--monitor", "--help"],
    &["rvbench", "run", "--harts", "2", "--help"],
    &["rvbench", "twin", "--help"],
    &["rvbench", "twin", "--slot", "3", "-h"],
    &["rvbench", "help", "twin"],
    &["rvbench", "asm", "--help"],
    &["rvbench", "help", "dis"],
];

#[test]
fn gives_help(rt: HostRuntime) {
    for words in GIVES_HELP {
        expect_help(&rt, rt.alloc(), words, &["rvbench"]);
    }
}

#[test]
fn help_shows_a_first_input(rt: HostRuntime) {
    let program = [
        "run",
        "twin",
        "asm",
        "dis",
        "for a RISC-V hart, or for two under its monitor",
        "printf '9300f0ff\\n--\\nstep 1\\nreg 1\\n' | rvbench",
    ];
    expect_help(&rt, rt.alloc(), &["rvbench", "--help"], &program);
    let run = [
        "--kind <KIND>",
        "[default: auto]",
        "[possible values: auto, raw, elf]",
        "--ram <BYTES>",
        "65536",
        "16777216",
        "[default: 1048576]",
        "--monitor",
        "80010000",
        "--harts <HARTS>",
        "2 harts need --monitor [default: 1]",
        "hart H, sched W",
    ];
    expect_help(&rt, rt.alloc(), &["rvbench", "run", "--help"], &run);
    let twin = [
        "--slot <K>",
        "from 0 to 12 [default: 0]",
        "--kind <KIND>",
        "--ram <BYTES>",
        "--harts <HARTS>",
        "1 or 2 [default: 1]",
        "rvbench twin",
    ];
    expect_help(&rt, rt.alloc(), &["rvbench", "twin", "--help"], &twin);
}

#[test]
fn numbers_faults(rt: HostRuntime) {
    let asked = WordsFault::Help(help(&rt, rt.alloc(), &["rvbench", "help"]));
    assert!(rt; asked.number() == 3);
    assert!(rt; WordsFault::Refused.number() == 1);
    assert!(rt; WordsFault::NoMemory.number() == 2);
}
