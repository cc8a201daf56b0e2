ghost use Rattle.std.specs.Prelude.{◌≡◌};
ghost use Rattle.command_line.specs.PlanForms.{form_named};
ghost use Rattle.command_line.specs.ProgressLines.{progress_named};
ghost use Rattle.command_line.specs.StatsForms.{stats_named};
ghost use Rattle.command_line.specs.HintPlaces.{hints_named};
ghost use Rattle.command_line.specs.ShardsForms.{shards_named};

/// How a plan is printed.
#[derive(Clone, Copy, Debug, PartialEq, Eq)]
pub enum PlanForm {
    /// In lines, one for each node and each pipe.
    Lines,
    /// The same lines, then the words of each command, what each pipe connects, and whether the script can stall.
    Full,
    /// As an object of JSON, for programs.
    Json,
    /// As a digraph in the language of Graphviz.
    Dot,
    /// As the two scripts that run it over an input in parts.
    Shards(ShardsForm),
}

impl PlanForm {
    /// The one of this name, if there is one. The digraph and the shards have options of their own, and no names.
    pub fn named(name: &str) -> Option<PlanForm>
        ensures { result ≡ form_named name.now }
    {
        if name == "lines" {
            Some(PlanForm::Lines)
        } else if name == "full" {
            Some(PlanForm::Full)
        } else if name == "json" {
            Some(PlanForm::Json)
        } else {
            None
        }
    }
}

/// How the shards of a script are printed.
#[derive(Clone, Copy, Debug, PartialEq, Eq)]
pub enum ShardsForm {
    /// In a line for each of the two scripts.
    Lines,
    /// The script that runs on each part alone.
    Map,
    /// The script that runs on the joined outputs alone.
    Combine,
    /// As an object of JSON, for programs.
    Json,
}

impl ShardsForm {
    /// The one of this name, if there is one.
    pub fn named(name: &str) -> Option<ShardsForm>
        ensures { result ≡ shards_named name.now }
    {
        if name == "lines" {
            Some(ShardsForm::Lines)
        } else if name == "map" {
            Some(ShardsForm::Map)
        } else if name == "combine" {
            Some(ShardsForm::Combine)
        } else if name == "json" {
            Some(ShardsForm::Json)
        } else {
            None
        }
    }
}

/// The place at which progress is shown.
#[derive(Clone, Copy, Debug, PartialEq, Eq)]
pub enum Progress {
    /// On a standard error that is a terminal.
    OnTerminal,
    /// On any standard error.
    Always,
}

impl Progress {
    /// The one of this name, if there is one.
    pub fn named(name: &str) -> Option<Progress>
        ensures { result ≡ progress_named name.now }
    {
        if name == "terminal" {
            Some(Progress::OnTerminal)
        } else if name == "always" {
            Some(Progress::Always)
        } else {
            None
        }
    }
}

/// How the statistics of a run are printed.
#[derive(Clone, Copy, Debug, PartialEq, Eq)]
pub enum StatsForm {
    /// In lines.
    Text,
    /// As an object of JSON, for programs.
    Json,
}

impl StatsForm {
    /// The one of this name, if there is one.
    pub fn named(name: &str) -> Option<StatsForm>
        ensures { result ≡ stats_named name.now }
    {
        if name == "text" {
            Some(StatsForm::Text)
        } else if name == "json" {
            Some(StatsForm::Json)
        } else {
            None
        }
    }
}

/// The place at which hints are written after the lines of a fault.
#[derive(Clone, Copy, Debug, PartialEq, Eq)]
pub enum Hints {
    /// On a standard error that is a terminal.
    OnTerminal,
    /// On any standard error.
    Always,
    /// One line a fault in the form of compilers, on any standard error.
    Line,
    /// Nowhere.
    Never,
}

impl Hints {
    /// The one of this name, if there is one.
    pub fn named(name: &str) -> Option<Hints>
        ensures { result ≡ hints_named name.now }
    {
        if name == "terminal" {
            Some(Hints::OnTerminal)
        } else if name == "always" {
            Some(Hints::Always)
        } else if name == "line" {
            Some(Hints::Line)
        } else if name == "never" {
            Some(Hints::Never)
        } else {
            None
        }
    }

    /// The place that these words ask for, each option with its value: on a terminal, if they ask for none. Words that `Request::read`
    /// refuses have one too.
    pub fn of_words(words: &[&str]) -> Hints {
        let mut hints = Hints::OnTerminal;
        for word in words {
            if *word == "--" {
                return hints;
            }
            if let Some(name) = word.strip_prefix("--hints=") {
                hints = Hints::named(name).unwrap_or(hints);
            }
        }
        hints
    }
}
