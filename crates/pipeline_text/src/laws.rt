ghost use Rattle.pipeline_text.specs.Laws.{KeepsSingleQuoted};

/// Whatever is between two single quotes is one word, unchanged.
pub fn single_quotes_keep_their_text()
    ensures { KeepsSingleQuoted }
{}
