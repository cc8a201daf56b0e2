use thiserror::Error;

/// Why the words of a command line ask for nothing.
#[derive(Debug, Drop, Error)]
pub enum Misuse {
    /// The words are no command line, or memory was refused. Its text is whole lines, whose
    /// characters mean bytes.
    #[error("{0}")]
    Words(#[from] clap::Error),
    /// A pipe would grow to fewer items than it holds at first.
    #[error("max-capacity is below capacity")]
    MaxCapacityBelowCapacity,
    /// A pipe would hold fewer bytes than a piece may have.
    #[error("bytes is below block")]
    BytesBelowBlock,
    /// There are two scripts, or there is none.
    #[error("give either -c TEXT or SCRIPT")]
    NotOneScript,
    /// No form of the plan has the name that is given.
    #[error("give --plan, --plan=lines, --plan=full or --plan=json")]
    NoSuchForm,
    /// No form of the shards has the name that is given.
    #[error("give --shards, --shards=lines, --shards=map, --shards=combine or --shards=json")]
    NoSuchShards,
    /// The plan is asked for in two of three ways: as a text, as a picture, and as shards.
    #[error("give only one of --plan, --dot and --shards")]
    TwoForms,
    /// No place at which progress is shown has the name that is given.
    #[error("give --progress, --progress=terminal or --progress=always")]
    NoSuchProgress,
    /// No form of the statistics has the name that is given.
    #[error("give --stats, --stats=text or --stats=json")]
    NoSuchStats,
    /// No place at which hints are written has the name that is given.
    #[error("give --hints, --hints=terminal, --hints=always, --hints=line or --hints=never")]
    NoSuchHints,
    /// No time at which outputs get their new content has the name that is given.
    #[error("give --atomic, --atomic=renamed or --atomic=synced")]
    NoSuchAtomic,
    /// No name of a strict run, or of one that is not, is the name that is given.
    #[error("give --strict, --strict=always or --strict=never")]
    NoSuchStrict,
    /// No fault has the code or the name that is asked about.
    #[error("no fault has this code: they are X1 to X12, A1 to A9, P1 to P12, D1 to D4, O1 to O3, F1 to F4 and S1")]
    NoSuchCode,
}

impl Misuse {
    /// Whether both are for one cause, as far as that can be told of an error in the words.
    pub fn has_cause_of(&self, other: &Misuse) -> bool {
        match (self, other) {
            (Misuse::Words(one), Misuse::Words(other)) => one.kind() == other.kind(),
            (Misuse::MaxCapacityBelowCapacity, Misuse::MaxCapacityBelowCapacity)
            | (Misuse::BytesBelowBlock, Misuse::BytesBelowBlock)
            | (Misuse::NotOneScript, Misuse::NotOneScript)
            | (Misuse::NoSuchForm, Misuse::NoSuchForm)
            | (Misuse::NoSuchShards, Misuse::NoSuchShards)
            | (Misuse::TwoForms, Misuse::TwoForms)
            | (Misuse::NoSuchProgress, Misuse::NoSuchProgress)
            | (Misuse::NoSuchStats, Misuse::NoSuchStats)
            | (Misuse::NoSuchHints, Misuse::NoSuchHints)
            | (Misuse::NoSuchAtomic, Misuse::NoSuchAtomic)
            | (Misuse::NoSuchStrict, Misuse::NoSuchStrict)
            | (Misuse::NoSuchCode, Misuse::NoSuchCode) => true,
            _ => false,
        }
    }
}
