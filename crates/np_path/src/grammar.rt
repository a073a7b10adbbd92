//! The grammar of a path, in one walk over its bytes.

ghost use Rattle.std.specs.Prelude.{◌≡◌, None, Some, IfErr, IfOk};
ghost use Rattle.std.specs.List.{list_all};
ghost use Rattle.std.specs.Result.{result_err};
ghost use Rattle.np_path.specs.Grammar.{path_fault, is_control, is_dots, is_element, is_kept, IsNameAt};

/// Whether no element may have the byte: it is below the blank, or DEL.
fn is_control(byte: u8) -> bool
    ensures { result ≡ is_control byte }
{
    byte < 0x20 || byte == 0x7F
}

/// Whether an element may have the byte.
fn is_kept(byte: u8) -> bool
    ensures { result ≡ is_kept byte }
{
    !is_control(byte) && byte != b'/'
}

/// Whether the element is empty, `.` or `..`.
fn is_dots(element: &[u8]) -> bool
    ensures { result ≡ is_dots element.now }
{
    matches!(element, [] | [b'.'] | [b'.', b'.'])
}

/// Whether an element may have each of the bytes.
pub fn are_kept(bytes: &[u8]) -> bool
    ensures { result ≡ list_all is_kept bytes.now }
{
    bytes.iter().all(|byte| is_kept(*byte))
}

/// Whether the name can come after a slash.
pub fn is_element(name: &[u8]) -> bool
    ensures { result ≡ is_element name.now }
{
    !is_dots(name) && are_kept(name)
}

/// Where the name of a path begins, or the place of the text's first fault.
pub fn name_place(text: &[u8]) -> Result<usize, usize>
    ensures fault { result_err result ≡ path_fault text.now }
    ensures name { IfOk result (IsNameAt text.now) }
{
    match text {
        [b'/'] => return Ok(1),
        [b'/', ..] => {}
        _ => return Err(0),
    }
    let mut start = 1;
    for at in 1..text.len() {
        let byte = text[at];
        if byte == b'/' {
            if is_dots(&text[start..at]) {
                return Err(start);
            }
            start = at + 1;
        } else if is_control(byte) {
            return Err(at);
        }
    }
    if is_dots(&text[start..]) {
        return Err(start);
    }
    Ok(start)
}
