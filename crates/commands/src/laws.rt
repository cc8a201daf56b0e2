ghost use Rattle.commands.specs.Laws.{InputsAreCounted, StandardInputIsNamedOnce};

/// A command names the standard input at most once among its inputs.
pub fn standard_input_is_named_once()
    ensures { StandardInputIsNamedOnce }
{}

/// A command has as many inputs as names of inputs.
pub fn inputs_are_counted()
    ensures { InputsAreCounted }
{}
