ghost use Rattle.std.specs.Prelude.{◌≡◌, ◌<◌, ◌↔◌, length};
ghost use Rattle.pipeline_text.specs.Grammar.{script_of, text_max};
ghost use Rattle.pipeline_text.specs.Refusals.{Meets, IsLimitOffset, IsTooLong};

use crate::fault::{TextFault, TextFaultKind};
use crate::parser::Parser;
use crate::script::Script;
use command_words::Sequence;
use std::alloc::Global;

// The greatest length of a script's text, in bytes.
const TEXT_MAX: usize = 65536;

/// Reads the script of a text, byte by byte, once.
pub fn read_script(alloc: Global, text: &[u8]) -> Result<Script, TextFault>
    ensures script { Meets text.now result (script_of text.now) }
    ensures too_long { IsTooLong result ↔ (text_max < length text.now) }
    ensures limit { IsLimitOffset result }
{
    if text.len() > TEXT_MAX {
        return Err(TextFault {
            kind: TextFaultKind::TooLong,
            offset: TEXT_MAX,
        });
    }
    let mut parser = Parser::new(text);
    let mut fifos = Sequence::new(alloc);
    let first = parser.fifos(alloc, &mut fifos)?;
    let pipelines = parser.body(alloc, first)?;
    Ok(Script { fifos, pipelines })
}
