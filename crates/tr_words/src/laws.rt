ghost use Rattle.tr_words.specs.StringLaws.{LastPairsHold, RepeatsAreCapped, StringsAreCut};

/// A string is its first element, followed by the rest.
pub fn strings_are_cut()
    ensures { StringsAreCut }
{}

/// A repeat of more bytes than a string may mean is refused, however many more there are.
pub fn repeats_are_capped()
    ensures { RepeatsAreCapped }
{}

/// The last pair that begins with a byte counts.
pub fn last_pairs_hold()
    ensures { LastPairsHold }
{}
