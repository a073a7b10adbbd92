//! The line of a host.

ghost use Rattle.std.specs.Prelude.{◌≡◌, ◌≤◌, ◌==◌, ◌∷◌, IfOk, IfSome, length, position};
ghost use Rattle.std.specs.Option.{option_copied, option_map};
ghost use Rattle.np_static.specs.Lower.{is_space, left_of, words_of};
ghost use Rattle.np_static.specs.Line.{host_in, host_with, line_with, pool_in, servers_in};

use crate::limit::HOST_SERVERS;
use np_event::LineFault;
use np_text::{PoolId, read_number};

/// A host of a pool.
#[derive(Clone, Copy)]
pub struct HostLine {
    pub pool: PoolId,
    /// How many servers it carries at once, 1 to 1,000.
    pub servers: u32,
}

fn first_space(text: &[u8]) -> Option<usize>
    ensures { result ≡ position is_space text.now }
{
    text.iter().position(|byte| *byte == b' ')
}

/// The first word, and the rest of the line if there is one.
fn split_word(text: &[u8]) -> (&[u8], Option<&[u8]>)
    ensures { words_of text.now ≡ result.0.now ∷ left_of (option_copied result.1) }
{
    match first_space(text) {
        Some(at) => {
            let (word, behind) = text.split_at(at);
            (word, Some(behind.split_at(1).1))
        }
        None => (text, None),
    }
}

/// The pool that a word names, if there are so many.
fn read_pool(text: &[u8], pools: usize) -> Option<PoolId>
    ensures { result ≡ pool_in pools text.now }
{
    match text {
        [b'p', digits @ ..] => {
            let number = read_number(digits, u64::from(u16::MAX))?;
            if (number as usize) < pools {
                Some(PoolId(number as u16))
            } else {
                None
            }
        }
        _ => None,
    }
}

/// How many servers a host carries.
fn read_servers(text: &[u8]) -> Option<u32>
    ensures { result ≡ servers_in text.now }
{
    match read_number(text, HOST_SERVERS)? {
        0 => None,
        number => Some(number as u32),
    }
}

/// The host of the two words after `host`.
fn read_pair(pool: &[u8], servers: &[u8], pools: usize) -> Result<HostLine, LineFault>
    ensures { result ≡ line_with (pool_in pools pool.now) (servers_in servers.now) }
{
    let Some(pool) = read_pool(pool, pools) else {
        return Err(LineFault::BadArgument { word: 2 });
    };
    let Some(servers) = read_servers(servers) else {
        return Err(LineFault::BadArgument { word: 3 });
    };
    Ok(HostLine { pool, servers })
}

/// The host of the words after `host`.
fn read_words(rest: Option<&[u8]>, pools: usize) -> Result<HostLine, LineFault>
    ensures { result ≡ host_with pools (left_of (option_copied rest.entry)) }
{
    let Some(rest) = rest else {
        return Err(LineFault::WrongCount);
    };
    let (pool, rest) = split_word(rest);
    let Some(rest) = rest else {
        return Err(LineFault::WrongCount);
    };
    let (servers, rest) = split_word(rest);
    match rest {
        Some(_) => Err(LineFault::WrongCount),
        None => read_pair(pool, servers, pools),
    }
}

/// The host of a line, or the line's first fault, where there are so many pools. It takes no
/// memory, and its time grows with the line's length.
pub(crate) fn read_host(line: &[u8], pools: usize) -> Result<HostLine, LineFault>
    ensures { result ≡ host_in pools (words_of line.now) }
{
    let (first, rest) = split_word(line);
    if first == b"host".as_slice() {
        read_words(rest, pools)
    } else {
        Err(LineFault::UnknownEvent)
    }
}
