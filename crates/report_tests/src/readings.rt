//! Texts that have a form, and texts that have none. What each text is follows from the table of
//! forms and from JSON by hand.

use cert_text::{LineStop, ProofLine, read_line};
use league_core::{Claim, Reason, Test};
use std::alloc::Global;
use std::test::Fail;

fn has_none(alloc: Global, text: &str) -> bool {
    matches!(read_line(alloc, text.as_bytes()), Err(LineStop::NoForm))
}

fn is_window(line: &ProofLine, claim: Claim, low: i32, high: i32) -> bool {
    match line {
        ProofLine::SpentWindow {
            claim: found,
            low: least,
            high: most,
        } => *found == claim && (*least, *most) == (low, high),
        _ => false,
    }
}

fn spaced_is_read(alloc: Global) -> Result<bool, Fail> {
    let spaced = read_line(alloc, b" [ \"spent\" ,\t\"inside\" , -99 , 1800 ]\r")?;
    Ok(is_window(&spaced, Claim::Inside, -99, 1800))
}

fn escaped_is_read(alloc: Global) -> Result<bool, Fail> {
    let escaped = read_line(alloc, br#"["leaf","\u0074ie"]"#)?;
    Ok(matches!(&escaped, ProofLine::Leaf(Reason::Tie)))
}

fn bound_in(line: &ProofLine) -> Option<(u16, u8)> {
    match line {
        ProofLine::NewSplit(Test::AwayMost { fixture, most }) => Some((*fixture, *most)),
        _ => None,
    }
}

fn bound_read(alloc: Global) -> Result<Option<(u16, u8)>, Fail> {
    let bound = read_line(alloc, br#"["new_split","ag",600,98]"#)?;
    Ok(bound_in(&bound))
}

#[test]
fn spaces_and_escapes_are_as_json_has_them(rt: HostRuntime) -> Result<(), Fail> {
    assert!(rt; spaced_is_read(rt.alloc())?);
    assert!(rt; escaped_is_read(rt.alloc())?);
    assert!(rt; bound_read(rt.alloc())? == Some((599, 98)));
    Ok(())
}

fn floor_in(line: &ProofLine) -> Option<u32> {
    match line {
        ProofLine::Leaf(Reason::Low(set)) => Some(set.bits),
        _ => None,
    }
}

fn floor_read(alloc: Global) -> Result<Option<u32>, Fail> {
    let floor = read_line(alloc, br#"["leaf","low",[2,3,24]]"#)?;
    Ok(floor_in(&floor))
}

fn are_lots(line: &ProofLine, clubs: &[u8]) -> bool {
    match line {
        ProofLine::Lots(lots) => lots.list.as_slice() == clubs,
        _ => false,
    }
}

fn lots_are_read(alloc: Global) -> Result<bool, Fail> {
    let lots = read_line(alloc, br#"["lots",[3,1,1]]"#)?;
    Ok(are_lots(&lots, &[2, 0, 0]))
}

#[test]
fn sets_and_lots_are_lists_of_clubs(rt: HostRuntime) -> Result<(), Fail> {
    assert!(rt; floor_read(rt.alloc())? == Some(0x80_0006));
    assert!(rt; lots_are_read(rt.alloc())?);
    Ok(())
}

#[test]
fn other_texts_have_no_form(rt: HostRuntime) -> Result<(), Fail> {
    let alloc = rt.alloc();
    for text in [
        "",
        "null",
        "[\"open\"",
        "[\"open\"],",
        "[\"open\",1]",
        "[\"Open\"]",
        "[\"tree\",\"Inside\"]",
        "[\"split\",\"home\",0]",
        "[\"split\",\"home\",601]",
        "[\"split\",\"home\",1.0]",
        "[\"split\",\"hg\",1,99]",
        "[\"split\",\"rival\",25]",
        "[\"leaf\",\"low\",[3,2]]",
        "[\"leaf\",\"low\",[2,2]]",
        "[\"leaf\",\"low\",[]]",
        "[\"leaf\",\"tie\",[1]]",
        "[\"score\",1,0]",
        "[\"score\",1,0,100]",
        "[\"spent\",\"inside\",-100,0]",
        "[\"spent\",\"inside\",0]",
        "\u{feff}[\"open\"]",
    ] {
        assert!(rt; has_none(alloc, text), "{text}");
    }
    assert!(rt; matches!(read_line(alloc, b"[\"\xff\"]"), Err(LineStop::NoForm)));
    Ok(())
}

#[test]
fn a_line_without_form_is_refused_in_words(rt: HostRuntime) -> Result<(), Fail> {
    let stop = LineStop::NoForm;
    let printed = format!(in rt.alloc(); "{stop}")?;
    assert_eq!(rt;
        printed.as_str(),
        "the text has none of the forms of a proof line"
    );
    Ok(())
}
