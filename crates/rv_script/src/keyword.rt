//! The first words of the commands.

ghost use Rattle.std.specs.Prelude.{◌≡◌, ℕ, List, find, map};
ghost use Rattle.std.specs.Option.{option_map};
ghost use Rattle.std.specs.Str.{bytes_eq};
ghost use Rattle.rv_script.specs.Command.{keyword_of};

/// The first word of a command.
#[derive(Clone, Copy)]
pub(crate) enum Keyword {
    Step,
    Run,
    Break,
    Clear,
    Watch,
    Unwatch,
    Reg,
    Regs,
    SetReg,
    Csr,
    Mem,
    Poke,
    Dis,
    Pmp,
    Enclaves,
    Access,
    Timer,
    Hart,
    Sched,
}

/// The texts of the keywords. Those of the commands that execute steps are first, since long scripts repeat them.
const SPELLINGS: &[(&str, Keyword)] = &[
    ("step", Keyword::Step),
    ("run", Keyword::Run),
    ("sched", Keyword::Sched),
    ("break", Keyword::Break),
    ("clear", Keyword::Clear),
    ("watch", Keyword::Watch),
    ("unwatch", Keyword::Unwatch),
    ("reg", Keyword::Reg),
    ("regs", Keyword::Regs),
    ("setreg", Keyword::SetReg),
    ("csr", Keyword::Csr),
    ("mem", Keyword::Mem),
    ("poke", Keyword::Poke),
    ("dis", Keyword::Dis),
    ("pmp", Keyword::Pmp),
    ("enclaves", Keyword::Enclaves),
    ("access", Keyword::Access),
    ("timer", Keyword::Timer),
    ("hart", Keyword::Hart),
];

impl Keyword {
    /// Returns the keyword with this text, if there is one. Keywords are case-sensitive.
    #[inline(never)]
    pub(crate) fn find(word: &[u8]) -> Option<Keyword>
        ensures { result ≡ keyword_of word.now }
    {
        Self::matching(SPELLINGS, word)
    }

    /// Returns the keyword in the row of a word, if there is one.
    fn matching(rows: &[(&str, Keyword)], word: &[u8]) -> Option<Keyword>
        ensures { result ≡ option_map (λ (row : List ℕ × Keyword). row.1) (find (λ row. bytes_eq word.now row.0) (map (λ row. (row.0.now, row.1)) rows.now)) }
    {
        let row = rows.iter().find(|row| word == row.0.as_bytes())?;
        Some(row.1)
    }
}
