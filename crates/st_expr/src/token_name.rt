//! Names out of tokens.
ghost use Rattle.plc_tokens.specs.Sorts as spec;
ghost use Rattle.phrase.specs.Reads.{OnlyMemory};

use phrase::Stop;
use plc_base::Name;
use plc_tokens::Token;
use plc_tokens::token::name_of;
use std::alloc::Global;

/// The name that a token gives.
pub fn token_name(alloc: Global, token: &Token) -> Result<Name, Stop>
    ensures { OnlyMemory result (spec.name_of token.now.kind) }
{
    match Name::new(alloc, name_of(&token.kind)) {
        Ok(name) => Ok(name),
        Err(_) => Err(Stop::Memory),
    }
}
