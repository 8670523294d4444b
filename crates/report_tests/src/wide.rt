//! Near leaves against their texts, written out by hand, and texts that are none.

ghost use Rattle.std.specs.Prelude.{IsTrue};
ghost use Rattle.wide_lines.specs.WideTexts.{is_wide_in_range};

use cert_text::{LineStop, read_line};
use std::alloc::Global;
use std::test::Fail;
use wide_lines::{WideLine, read_wide_line, write_wide_line};

fn writes(alloc: Global, line: WideLine, wanted: &str) -> Result<bool, Fail>
    requires { IsTrue (is_wide_in_range line) }
{
    let text = write_wide_line(alloc, &line).map_err(|_| "memory")?;
    Ok(text.as_slice() == wanted.as_bytes())
}

// The rival of a near leaf, and whether it is new.
fn near_in(line: &WideLine) -> Option<(u8, bool)> {
    match line {
        WideLine::Near(rival) => Some((*rival, false)),
        WideLine::NewNear(rival) => Some((*rival, true)),
        WideLine::Plain(_) => None,
    }
}

fn near_read(alloc: Global, text: &[u8]) -> Result<Option<(u8, bool)>, Fail> {
    let line = read_wide_line(alloc, text)?;
    Ok(near_in(&line))
}

fn has_none(alloc: Global, text: &str) -> bool {
    matches!(
        read_wide_line(alloc, text.as_bytes()),
        Err(LineStop::NoForm)
    )
}

fn is_no_proof_line(alloc: Global, text: &str) -> bool {
    matches!(read_line(alloc, text.as_bytes()), Err(LineStop::NoForm))
}

#[test]
fn near_leaves_name_their_rival(rt: HostRuntime) -> Result<(), Fail> {
    let alloc = rt.alloc();
    assert!(rt; writes(alloc, WideLine::Near(0), r#"["leaf","near",1]"#)?);
    assert!(rt; writes(alloc, WideLine::NewNear(23), r#"["new_leaf","near",24]"#)?);
    Ok(())
}

#[test]
fn near_leaves_are_read_with_spaces(rt: HostRuntime) -> Result<(), Fail> {
    let alloc = rt.alloc();
    assert!(rt; near_read(alloc, br#"["new_leaf","near",24]"#)? == Some((23, true)));
    assert!(rt; near_read(alloc, b" [ \"leaf\" ,\t\"near\" , 7 ]\r")? == Some((6, false)));
    assert!(rt; near_read(alloc, br#"["leaf","tie"]"#)? == None);
    assert!(rt; is_no_proof_line(alloc, r#"["leaf","near",1]"#));
    Ok(())
}

#[test]
fn other_texts_are_no_near_leaves(rt: HostRuntime) -> Result<(), Fail> {
    let alloc = rt.alloc();
    assert!(rt; has_none(alloc, r#"["leaf","near"]"#));
    assert!(rt; has_none(alloc, r#"["leaf","near",0]"#));
    assert!(rt; has_none(alloc, r#"["leaf","near",25]"#));
    assert!(rt; has_none(alloc, r#"["leaf","near",1,2]"#));
    assert!(rt; has_none(alloc, r#"["leaf","near","1"]"#));
    assert!(rt; has_none(alloc, r#"["split","near",1]"#));
    Ok(())
}
