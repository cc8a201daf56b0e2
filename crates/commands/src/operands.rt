ghost use Rattle.std.specs.Prelude.{◌≡◌};
ghost use Rattle.commands.specs.Operands.{input_operands, output_operands, is_appending, writes_standard, operand_count};

use crate::spec::FilterSpec;
use command_words::Word;

impl FilterSpec {
    /// The operands that name its inputs, each input once; `-` is standard input. Without any it reads that alone.
    pub fn input_operands(&self) -> &[Word]
        ensures { result.now ≡ input_operands self.now }
    {
        match self {
            FilterSpec::Cat(spec) => spec.inputs.as_slice(),
            FilterSpec::Cut(spec) => spec.inputs.as_slice(),
            FilterSpec::Fold(spec) => spec.inputs.as_slice(),
            FilterSpec::Head(spec) => spec.inputs.as_slice(),
            FilterSpec::Paste(spec) => spec.inputs.as_slice(),
            FilterSpec::Tail(spec) => spec.inputs.as_slice(),
            FilterSpec::Tee(_) | FilterSpec::Tr(_) => &[],
            FilterSpec::Uniq(spec) => spec.inputs.as_slice(),
            FilterSpec::Wc(spec) => spec.operands.as_slice(),
        }
    }

    /// The operands that name its outputs.
    pub fn output_operands(&self) -> &[Word]
        ensures { result.now ≡ output_operands self.now }
    {
        match self {
            FilterSpec::Tee(spec) => spec.outputs.as_slice(),
            FilterSpec::Uniq(spec) => match &spec.output {
                Some(name) => std::slice::from_ref(name),
                None => &[],
            },
            _ => &[],
        }
    }

    /// Whether it writes after what these hold.
    pub fn is_appending(&self) -> bool
        ensures { result ≡ is_appending self.now }
    {
        match self {
            FilterSpec::Tee(spec) => spec.append,
            _ => false,
        }
    }

    /// Whether it writes its standard output.
    pub fn writes_standard(&self) -> bool
        ensures { result ≡ writes_standard self.now }
    {
        match self {
            FilterSpec::Uniq(spec) => spec.output.is_none(),
            _ => true,
        }
    }

    /// How many operands it has, each `-` of paste among them.
    pub fn operand_count(&self) -> usize
        ensures { result ≡ operand_count self.now }
    {
        match self {
            FilterSpec::Paste(spec) => spec.columns.as_slice().len(),
            FilterSpec::Tee(spec) => spec.outputs.as_slice().len(),
            _ => self.input_operands().len(),
        }
    }
}
