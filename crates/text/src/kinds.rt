// The words of the language.
ghost use Rattle.text.specs.Kinds.{kind, spelled};
ghost use Rattle.std.specs.Prelude.{◌≡◌};
ghost use Rattle.std.specs.Str.{bytes_eq};

// A word that is no number.
#[derive(Clone, Copy, PartialEq, Eq)]
pub(crate) enum Kind {
    Num,
    Loc,
    Glob,
    Cell,
    Add,
    Sub,
    Nand,
    Less,
    Half,
    Call,
    Skip,
    Then,
    SetLoc,
    SetGlob,
    SetCell,
    If,
    While,
    Out,
    Take,
    Program,
    Proc,
}

const KINDS: [Kind; 21] = [
    Kind::Num,
    Kind::Loc,
    Kind::Glob,
    Kind::Cell,
    Kind::Add,
    Kind::Sub,
    Kind::Nand,
    Kind::Less,
    Kind::Half,
    Kind::Call,
    Kind::Skip,
    Kind::Then,
    Kind::SetLoc,
    Kind::SetGlob,
    Kind::SetCell,
    Kind::If,
    Kind::While,
    Kind::Out,
    Kind::Take,
    Kind::Program,
    Kind::Proc,
];

impl Kind {
    // How a word of the kind is written.
    fn spelling(self) -> &'static [u8]
        ensures { result.now ≡ spelled self }
    {
        match self {
            Kind::Num => b"num",
            Kind::Loc => b"loc",
            Kind::Glob => b"glob",
            Kind::Cell => b"cell",
            Kind::Add => b"add",
            Kind::Sub => b"sub",
            Kind::Nand => b"nand",
            Kind::Less => b"less",
            Kind::Half => b"half",
            Kind::Call => b"call",
            Kind::Skip => b"skip",
            Kind::Then => b"then",
            Kind::SetLoc => b"setloc",
            Kind::SetGlob => b"setglob",
            Kind::SetCell => b"setcell",
            Kind::If => b"if",
            Kind::While => b"while",
            Kind::Out => b"out",
            Kind::Take => b"take",
            Kind::Program => b"program",
            Kind::Proc => b"proc",
        }
    }

    // Whether a word is one of the kind.
    fn is_spelled(self, w: &[u8]) -> bool
        ensures { result ≡ bytes_eq w.now (spelled self) }
    {
        w == self.spelling()
    }
}

// The kind of a word, if it is a word of the language.
pub(crate) fn kind_of(w: &[u8]) -> Option<Kind>
    ensures { result ≡ kind w.now }
{
    KINDS.iter().copied().find(|k| k.is_spelled(w))
}
