//! Writing, part by part.
ghost use Rattle.std.specs.Prelude.{◌≡◌, ◌++◌, ◌∷◌, [], OnOk};
ghost use Rattle.np_spelling.specs.Lower.{HasText, request_text_of};
ghost use Rattle.np_spelling.specs.Spelling.{joined};
ghost use Rattle.std.specs.Fmt.{decimal};

use np_text::{Ample, RequestId, put_number, request_text};

/// Appends these bytes.
pub(crate) fn put(out: &mut Vec<u8>, text: &[u8]) -> Ample
    ensures { OnOk result (out.new.items ≡ out.old.items ++ text.now) }
{
    out.extend_from_slice(text)?;
    Ok(())
}

/// Appends these bytes and then a number.
pub(crate) fn put_number_behind(out: &mut Vec<u8>, text: &[u8], n: u64) -> Ample
    ensures { OnOk result (out.new.items ≡ out.old.items ++ (text.now ++ decimal n)) }
{
    put(out, text)?;
    put_number(out, n)
}

/// Appends these bytes and then a number of 32 bits.
pub(crate) fn put_u32_behind(out: &mut Vec<u8>, text: &[u8], n: u32) -> Ample
    ensures { OnOk result (out.new.items ≡ out.old.items ++ (text.now ++ decimal n)) }
{
    put_number_behind(out, text, u64::from(n))
}

/// Appends a number between these bytes.
pub(crate) fn put_number_between(out: &mut Vec<u8>, before: &[u8], n: u64, after: &[u8]) -> Ample
    ensures { OnOk result (out.new.items ≡ out.old.items ++ joined (before.now ∷ decimal n ∷ after.now ∷ [])) }
{
    put_number_behind(out, before, n)?;
    put(out, after)
}

/// Appends a request's id between these bytes.
pub(crate) fn put_request_between(
    out: &mut Vec<u8>,
    before: &[u8],
    id: RequestId,
    after: &[u8],
) -> Ample
    requires { HasText id }
    ensures { OnOk result (out.new.items ≡ out.old.items ++ joined (before.now ∷ request_text_of id ∷ after.now ∷ [])) }
{
    put(out, before)?;
    put(out, &request_text(id))?;
    put(out, after)
}

/// Appends these bytes and then a number of 16 bits.
pub(crate) fn put_u16_behind(out: &mut Vec<u8>, text: &[u8], n: u16) -> Ample
    ensures { OnOk result (out.new.items ≡ out.old.items ++ (text.now ++ decimal n)) }
{
    put_number_behind(out, text, u64::from(n))
}

/// Appends a number of 8 bits.
pub(crate) fn put_u8(out: &mut Vec<u8>, n: u8) -> Ample
    ensures { OnOk result (out.new.items ≡ out.old.items ++ decimal n) }
{
    put_number(out, u64::from(n))
}
