//! The lines of the facts that explain why jobs wait.

ghost use Rattle.std.specs.Prelude.{◌≡◌, ◌++◌, OnOk};
ghost use Rattle.np_explain.specs.Explained.{indent, link_line, link_lines, mark};

use np_config::Config;
use np_explain_lines::{Link, put, put_line};
use np_text::Ample;

/// The most spaces before a line.
const SPACES: &[u8; 60] = b"                                                            ";

/// Two spaces for each step from the job, and at most sixty.
fn put_indent(out: &mut Vec<u8>, depth: u32) -> Ample
    ensures { OnOk result (out.new.items ≡ out.old.items ++ indent depth) }
{
    let steps = depth.min(30);
    let (spaces, _) = SPACES.split_at(2 * steps as usize);
    put(out, spaces)
}

fn put_mark(out: &mut Vec<u8>, again: bool) -> Ample
    ensures { OnOk result (out.new.items ≡ out.old.items ++ mark again) }
{
    if again {
        return put(out, b" (above)");
    }
    Ok(())
}

#[tactic(auto, unfolding(crate::specs::Explained::link_line))]
fn put_link(out: &mut Vec<u8>, config: &Config, link: &Link) -> Ample
    ensures { OnOk result (out.new.items ≡ out.old.items ++ link_line config.now link.now) }
{
    put_indent(out, link.depth)?;
    put_line(out, config, &link.fact)?;
    put_mark(out, link.again)?;
    put(out, b"\n")
}

/// Appends the line of each link.
pub(crate) fn put_links(out: &mut Vec<u8>, config: &Config, links: &[Link]) -> Ample
    ensures { OnOk result (out.new.items ≡ out.old.items ++ link_lines config.now links.now) }
{
    for link in links {
        put_link(out, config, link)?;
    }
    Ok(())
}
