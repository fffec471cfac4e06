//! How the tokens of a text become the bytes of a key.
ghost use Rattle.std.specs.Prelude.{◌≡◌, ◌==◌, ◌++◌, OnOk, IfOk, length, chars};
ghost use Rattle.sg_analysis.specs.Analysis.{joined_tokens, tokens};
ghost use Rattle.sg_analysis.specs.Joining.{lead};

use sg_base::TOKEN_SEPARATOR;
use std::alloc::{AllocError, Global};

fn push_token(out: &mut Vec<u8>, token: &str, separators: bool) -> Result<(), AllocError>
    ensures { OnOk result (out.new.items
        ≡ (out.old.items ++ lead separators (length out.old.items == 0)) ++ token.now) }
{
    if separators && !out.is_empty() {
        out.push(TOKEN_SEPARATOR)?;
    }
    out.extend_from_slice(token.as_bytes())
}

/// The bytes of a text's tokens, with a separator between each two where separators are on.
pub fn joined_tokens(alloc: Global, text: &str, separators: bool) -> Result<Vec<u8>, AllocError>
    ensures { IfOk result (λ v. v.items ≡ joined_tokens separators (tokens (chars text.now))) }
{
    let mut out = Vec::new(alloc);
    for token in text.split_whitespace() {
        push_token(&mut out, token, separators)?;
    }
    Ok(out)
}
