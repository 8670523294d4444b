//! Each form of a proof line against its text, written out by hand from the table of forms.

ghost use Rattle.std.specs.Prelude.{IsTrue};
ghost use Rattle.cert_text.specs.Ranges.{is_in_range};

use cert_text::{ClubList, ProofLine, write_line};
use league_core::{Claim, ClubSet, Listing, Reason, Score, Test};
use std::alloc::Global;
use std::test::Fail;

fn writes(alloc: Global, line: ProofLine, wanted: &str) -> Result<bool, Fail>
    requires { IsTrue (is_in_range line) }
{
    let text = write_line(alloc, &line).map_err(|_| "memory")?;
    Ok(text.as_slice() == wanted.as_bytes())
}

#[test]
fn trees_and_examples_have_their_heads(rt: HostRuntime) -> Result<(), Fail> {
    let alloc = rt.alloc();
    assert!(rt;
        writes(
            alloc,
            ProofLine::Tree(Claim::Inside),
            r#"["tree","inside"]"#
        )?
    );
    assert!(rt;
        writes(
            alloc,
            ProofLine::Tree(Claim::Outside),
            r#"["tree","outside"]"#
        )?
    );
    assert!(rt;
        writes(
            alloc,
            ProofLine::Spent(Claim::Outside),
            r#"["spent","outside"]"#
        )?
    );
    assert!(rt;
        writes(
            alloc,
            ProofLine::Finish(Claim::Inside),
            r#"["finish","inside"]"#
        )?
    );
    assert!(rt; writes(alloc, ProofLine::OpenLeaf, r#"["open"]"#)?);
    let window = ProofLine::SpentWindow {
        claim: Claim::Inside,
        low: -99,
        high: 0,
    };
    assert!(rt; writes(alloc, window, r#"["spent","inside",-99,0]"#)?);
    let window = ProofLine::SpentWindow {
        claim: Claim::Outside,
        low: 41,
        high: 1800,
    };
    assert!(rt; writes(alloc, window, r#"["spent","outside",41,1800]"#)?);
    Ok(())
}

#[test]
fn splits_name_their_test(rt: HostRuntime) -> Result<(), Fail> {
    let alloc = rt.alloc();
    let test = Test::Home { fixture: 0 };
    assert!(rt; writes(alloc, ProofLine::Split(test), r#"["split","home",1]"#)?);
    let test = Test::Draw { fixture: 599 };
    assert!(rt; writes(alloc, ProofLine::Split(test), r#"["split","draw",600]"#)?);
    let test = Test::HomeMost {
        fixture: 9,
        most: 0,
    };
    assert!(rt;
        writes(
            alloc,
            ProofLine::NewSplit(test),
            r#"["new_split","hg",10,0]"#
        )?
    );
    let test = Test::AwayMost {
        fixture: 9,
        most: 98,
    };
    assert!(rt; writes(alloc, ProofLine::Split(test), r#"["split","ag",10,98]"#)?);
    let test = Test::Rival { club: 23 };
    assert!(rt;
        writes(
            alloc,
            ProofLine::NewSplit(test),
            r#"["new_split","rival",24]"#
        )?
    );
    Ok(())
}

#[test]
fn leaves_name_their_reason(rt: HostRuntime) -> Result<(), Fail> {
    let alloc = rt.alloc();
    assert!(rt; writes(alloc, ProofLine::Leaf(Reason::Count), r#"["leaf","count"]"#)?);
    assert!(rt;
        writes(
            alloc,
            ProofLine::NewLeaf(Reason::Window),
            r#"["new_leaf","window"]"#
        )?
    );
    assert!(rt; writes(alloc, ProofLine::Leaf(Reason::Tie), r#"["leaf","tie"]"#)?);
    let set = ClubSet { bits: 6 };
    assert!(rt;
        writes(
            alloc,
            ProofLine::NewLeaf(Reason::Low(set)),
            r#"["new_leaf","low",[2,3]]"#
        )?
    );
    let set = ClubSet { bits: 0x80_0000 };
    assert!(rt;
        writes(
            alloc,
            ProofLine::Leaf(Reason::High(set)),
            r#"["leaf","high",[24]]"#
        )?
    );
    Ok(())
}

#[test]
fn an_example_is_scores_and_lots(rt: HostRuntime) -> Result<(), Fail> {
    let alloc = rt.alloc();
    let score = Score { home: 10, away: 2 };
    assert!(rt;
        writes(
            alloc,
            ProofLine::Score { fixture: 0, score },
            r#"["score",1,10,2]"#
        )?
    );
    let score = Score { home: 0, away: 99 };
    assert!(rt;
        writes(
            alloc,
            ProofLine::Score {
                fixture: 599,
                score
            },
            r#"["score",600,0,99]"#
        )?
    );
    let list = Listing::from_vec([2, 0, 23, 1].to_vec(alloc)?);
    assert!(rt;
        writes(
            alloc,
            ProofLine::Lots(ClubList { list }),
            r#"["lots",[3,1,24,2]]"#
        )?
    );
    let list = Listing::new(alloc);
    assert!(rt; writes(alloc, ProofLine::Lots(ClubList { list }), r#"["lots",[]]"#)?);
    Ok(())
}
